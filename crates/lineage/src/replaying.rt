// The steps down to a normal word: the word is reduced once more in a copy, and each replacement is noted.
ghost use Rattle.std.specs.Prelude.{◌≡◌, ◌+◌, ◌<◌, ◌≤◌, length};
ghost use Rattle.rewriting.specs.Sheet.{rules_of};
ghost use Rattle.layout.specs.Lines.{rules};
ghost use Rattle.workspace.specs.Areas.{most_steps};
ghost use Rattle.workspace.specs.Desk.{state, Notes};
ghost use Rattle.lineage.specs.Lineage.{either_way, steps_down};
ghost use Rattle.lineage.specs.Noting.{number_of, Replays, Replayed, DueNoted};

use layout::lent::Lines;
use reducing::search_by_lines;
use rewriting::Found;
use rewriting::word_buf::WordBuf;
use workspace::Desk;

// Makes the replacement due in a word.
fn make_due(lines: Lines, word: &mut WordBuf) -> Found
    requires { Replays (rules lines) 1 word.old }
    ensures { Replayed (rules lines.entry) lines.entry.n word.old word.new result }
{
    let found = search_by_lines(lines, word.as_slice()).unwrap();
    let left = lines.left(found.line);
    let right = lines.right(found.line);
    word.replace(found.place, left.len(), right);
    found
}

// Makes the replacement due by the standing lines of the state, and notes it as the step of number at.
fn note_due(desk: &mut Desk, cited: usize, at: usize, back: bool, word: &mut WordBuf)
    requires { (cited ≤ 64) × (at < most_steps) × Replays (rules_of (state desk.old).lines) 1 word.old }
    ensures { DueNoted (rules_of (state desk.old).lines) cited back at desk.old desk.new word.old word.new }
{
    let Found { place, line } = make_due(desk.lines(), word);
    desk.note_step(at, cited + line, back, place as u8);
}

// The number under which replacement k of count is noted: from the number at on, or from behind.
fn number_of(at: usize, count: usize, k: usize, back: bool) -> usize
    requires { (k < count) × (at + count ≤ most_steps) }
    ensures { (result ≡ number_of at count k back) × (result < most_steps) }
{
    if back { at + (count - (k + 1)) } else { at + k }
}

// The steps of the first count replacements in a word, noted from the number at on, one way or the other.
pub fn note_word(desk: &mut Desk, cited: usize, at: usize, back: bool, word: &[u8], count: usize)
    requires { (cited ≤ 64) × (at + count ≤ most_steps) × (length word.now ≤ 128)
        × Replays (rules_of (state desk.old).lines) count word.now }
    ensures { Notes desk.old at
        (either_way back (steps_down cited (rules_of (state desk.old).lines) count word.now)) desk.new }
{
    let mut copy = WordBuf::from_word(word);
    for k in 0..count {
        let number = number_of(at, count, k, back);
        note_due(desk, cited, number, back, &mut copy);
    }
}
