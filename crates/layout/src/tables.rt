// Tables: judged, with their steps; the others beside them are in `sheets`.
ghost use Rattle.std.specs.Prelude.{◌≡◌, ◌&&◌, ◌+◌, ◌-◌, ◌*◌, ◌<◌, ◌≤◌, leb, ltb, eqb, length, get_or, drop};
ghost use Rattle.words.specs.Word.{letters_below};
ghost use Rattle.layout.specs.Header.{table_width, step_width, table_kind, header_of, records_of, steps_of, words_of};
ghost use Rattle.layout.specs.Judged.{TableHead};
ghost use Rattle.layout.specs.Tables.{steps_in, step_fits, steps_fit, line_fits, lines_fit, table_fits};

use crate::areas::{records_of, steps_of, words_of};
use crate::headers::{header_fits, header_of};
use crate::records::{pair_length, sides_fit};
use crate::{HEADER_SIZE, Header, STEP_WIDTH, TABLE, TABLE_WIDTH};
use buffers::u16_at;
use words::letters_below;

// The step at the byte p fits: its reference is below the bound, its direction 0 or 1, its position at most 128.
#[tactic(auto, unfolding(crate::specs::Tables::step_fits))]
fn step_fits(steps: &[u8], p: usize, bound: usize) -> bool
    requires { p + step_width ≤ length steps.now }
    ensures { result ≡ step_fits bound (drop p steps.now) }
{
    u16_at(steps, p) < bound && steps[p + 2] <= 1 && steps[p + 3] <= 128
}

// The n steps from the byte p on fit.
fn steps_fit(steps: &[u8], p: usize, n: usize, bound: usize) -> bool
    requires { p + step_width * n ≤ length steps.now }
    ensures { result ≡ steps_fit bound n (drop p steps.now) }
{
    (0..n).all(|i| step_fits(steps, p + STEP_WIDTH * i, bound))
}

// The number of steps of the record at the byte p.
pub fn steps_in(recs: &[u8], p: usize) -> usize
    requires { p + table_width ≤ length recs.now }
    ensures { (result ≡ steps_in (drop p recs.now)) × (result < 65536) }
{
    u16_at(recs, p + 4)
}

// Flag and zero byte of the record at the byte p.
fn marks_fit(recs: &[u8], p: usize) -> bool
    requires { p + table_width ≤ length recs.now }
    ensures { result ≡ leb (get_or (drop p recs.now) 6 0) 1 && eqb (get_or (drop p recs.now) 7 0) 0 }
{
    recs[p + 6] <= 1 && recs[p + 7] == 0
}

// The line whose record is at the byte p fits, where the steps from q on and the words from o on are left.
#[tactic(auto, unfolding(crate::specs::Tables::line_fits))]
fn line_fits(
    recs: &[u8],
    p: usize,
    steps: &[u8],
    q: usize,
    words: &[u8],
    o: usize,
    bound: usize,
) -> bool
    requires { (p + table_width ≤ length recs.now) × (q ≤ length steps.now) × (o ≤ length words.now) }
    ensures { result ≡ line_fits bound o (drop p recs.now) (drop q steps.now) (drop o words.now) }
{
    let n = steps_in(recs, p);
    sides_fit(recs, p, words, o)
        && marks_fit(recs, p)
        && STEP_WIDTH * n <= steps.len() - q
        && steps_fit(steps, q, n, bound)
}

// The n lines fit, one behind the other, and neither step nor letter is left.
#[tactic(auto, using(crate::proofs::TableLaws::judging))]
pub fn lines_fit(recs: &[u8], steps: &[u8], words: &[u8], n: usize, cited: usize) -> bool
    requires { (length recs.now ≡ table_width * n) × (n ≤ table_kind.pairs) × (cited ≤ table_kind.cited) }
    ensures { result ≡ lines_fit cited 0 n recs.now steps.now words.now }
{
    let mut q = 0;
    let mut o = 0;
    for j in 0..n {
        if !line_fits(recs, TABLE_WIDTH * j, steps, q, words, o, cited + j) {
            return false;
        }
        q += STEP_WIDTH * steps_in(recs, TABLE_WIDTH * j);
        o += pair_length(recs, TABLE_WIDTH * j);
    }
    q == steps.len() && o == words.len()
}

// The areas of a table with a good header fit.
fn table_areas_fit(b: &[u8], h: Header) -> bool
    requires { TableHead h (length b.now) × (h ≡ header_of b.now) }
    ensures { result ≡ lines_fit h.cited 0 h.pairs (records_of table_kind b.now) (steps_of table_kind b.now) (words_of table_kind b.now)
        && letters_below h.letters (words_of table_kind b.now) }
{
    let words = words_of(b, TABLE, h);
    lines_fit(
        records_of(b, TABLE, h),
        steps_of(b, TABLE, h),
        words,
        h.pairs,
        h.cited,
    ) && letters_below(words, h.letters)
}

// The slice is a table.
#[tactic(auto, using(crate::proofs::HeaderLaws::header_short), unfolding(crate::specs::Tables::table_fits))]
pub fn table_fits(b: &[u8]) -> bool
    ensures { result ≡ table_fits b.now }
{
    if b.len() < HEADER_SIZE {
        return false;
    }
    let h = header_of(b);
    header_fits(b, TABLE, h) && table_areas_fit(b, h)
}
