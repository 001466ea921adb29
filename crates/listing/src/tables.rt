// A table's lines as text.
ghost use Rattle.std.specs.Prelude.{◌≡◌, ◌++◌, ◌+◌, ◌*◌, ◌<◌, ◌≤◌, length};
ghost use Rattle.rewriting.specs.Sheet.{side_limit};
ghost use Rattle.buffers.specs.Appended.{Appended};
ghost use Rattle.layout.specs.Lines.{rules};
ghost use Rattle.listing.specs.Decimal.{decimal};
ghost use Rattle.listing.specs.Room.{title_most, sides_most, rule_most, text_room};
ghost use Rattle.listing.specs.Text.{text_bytes, word_text, rule_text, rules_text, title_text};
ghost use Rattle.listing.specs.Slices.{standing_from, line_text, slices_text};

use crate::decimals::{put_decimal, put_with_number};
use crate::letters::put_with_word;
use buffers::put_bytes;
use layout::lent::Lines;

// Both words of a line: colon, left, arrow, right; where they end.
fn put_sides(out: &mut [u8], at: usize, left: &[u8], right: &[u8]) -> usize
    requires { (at + sides_most ≤ length out.old) × (length left.now ≤ side_limit) × (length right.now ≤ side_limit) }
    ensures { Appended out.old out.new at result sides_most
        (text_bytes ": " ++ word_text left.now ++ (text_bytes " -> " ++ word_text right.now)) }
{
    let middle = put_with_word(out, at, b": ", left);
    put_with_word(out, middle, b" -> ", right)
}

// A standing line: its number, its words and the end of the line; where it ends.
fn put_rule(out: &mut [u8], at: usize, line: usize, left: &[u8], right: &[u8]) -> usize
    requires { (at + rule_most ≤ length out.old) × (length (decimal line) ≤ 3) × (length left.now ≤ side_limit) × (length right.now ≤ side_limit) }
    ensures { Appended out.old out.new at result rule_most
        (rule_text (record { line = line; left = left.now; right = right.now })) }
{
    let number = put_decimal(out, at, line);
    let sides = put_sides(out, number, left, right);
    put_bytes(out, sides, b"\n")
}

// Line j, where it stands; where it ends.
fn put_line(out: &mut [u8], at: usize, lines: Lines, j: usize) -> usize
    requires { (j < lines.n) × (at + rule_most ≤ length out.old) }
    ensures { Appended out.old out.new at result rule_most (line_text lines.entry.recs.now lines.entry.words.now j) }
{
    let stands = lines.stands(j);
    if stands {
        put_rule(out, at, j, lines.left(j), lines.right(j))
    } else {
        at
    }
}

// The standing lines, in line order; where they end.
fn put_rules(out: &mut [u8], at: usize, lines: Lines) -> usize
    requires { at + rule_most * lines.n ≤ length out.old }
    ensures { Appended out.old out.new at result (rule_most * lines.entry.n) (rules_text (rules lines.entry)) }
{
    let mut end = at;
    for j in 0..lines.n {
        end = put_line(out, end, lines, j);
    }
    end
}

// How many of the lines stand.
fn count_rules(lines: Lines) -> usize
    ensures { (result ≡ standing_from lines.entry.recs.now 0 lines.entry.n) × (result ≤ lines.entry.n) }
{
    (0..lines.n).filter(|j| lines.stands(*j)).count()
}

// The title, at the start of the output; where it ends.
fn put_title(out: &mut [u8], rules: usize, lines: usize) -> usize
    requires { (title_most ≤ length out.old) × (length (decimal rules) ≤ 3) × (length (decimal lines) ≤ 3) }
    ensures { Appended out.old out.new 0 result title_most (title_text rules lines) }
{
    let first = put_with_number(out, 0, b"ok ", rules);
    let second = put_with_number(out, first, b" rules ", lines);
    put_bytes(out, second, b" lines\n")
}

// The lines of a table, at the start of the output; where the text ends.
pub fn put_table(out: &mut [u8], lines: Lines) -> usize
    requires { text_room ≤ length out.old }
    ensures { Appended out.old out.new 0 result text_room (slices_text lines.entry.recs.now lines.entry.words.now lines.entry.n) }
{
    let count = count_rules(lines);
    let middle = put_title(out, count, lines.n);
    put_rules(out, middle, lines)
}
