// The public call of a critical pair: peak and reducts go to 0, 64 and 128 of the output.
ghost use Rattle.std.specs.Prelude.{◌≡◌, [], ◌+◌, ◌*◌, ◌<◌, ◌≤◌, Ok, Some, length};
ghost use Rattle.buffers.specs.Written.{written};
ghost use Rattle.words.specs.Refusal.{answered};
ghost use Rattle.layout.specs.Slices.{line_in, line_left};
ghost use Rattle.layout.specs.Lines.{lines as linesOf};
ghost use Rattle.queries.specs.Pair.{pair_counts, pair_at_lines, pair_of, pair_result};
ghost use Rattle.queries.specs.Calls.{PairCalled};

use crate::Lengths;
use buffers::put;
use layout::judged::Table;
use layout::lent::Lines;
use rewriting::standing::is_pair;
use rewriting::word_buf::WordBuf;
use words::Refusal;

// The lines i and m are there and stand, and the place k counts for them.
fn pair_counts(lines: Lines, i: usize, m: usize, k: usize) -> bool
    ensures { result ≡ pair_counts (linesOf lines.entry) i m k }
{
    i < lines.n
        && m < lines.n
        && lines.stands(i)
        && lines.stands(m)
        && is_pair(i, m, k, lines.left(i), lines.left(m))
}

// A word goes to this place of the output; its length is given.
fn show_word(word: &WordBuf, out: &mut [u8], at: usize) -> usize
    requires { at + length word.now ≤ length out.old }
    ensures { (result ≡ length word.now) × (out.new ≡ written out.old at word.now) }
{
    put(out, at, word.as_slice());
    word.len()
}

// Peak and reducts of the lines i and m at the place k go to the output. With left for right the first reduct is the peak.
fn show_pair(lines: Lines, i: usize, m: usize, k: usize, out: &mut [u8]) -> Lengths
    requires { (i < lines.n) × (m < lines.n) × (k ≤ length (line_left lines.recs.now lines.words.now i)) × (192 ≤ length out.old) }
    ensures { PairCalled (answered (pair_at_lines k (line_in lines.entry.recs.now [] lines.entry.words.now i)
        (line_in lines.entry.recs.now [] lines.entry.words.now m))) out.old out.new (Ok (Some result)) }
{
    let left = lines.left(i);
    let right = lines.right(i);
    let laid = lines.left(m);
    let other = lines.right(m);
    let peak = show_word(&WordBuf::first_reduct(left, left, laid, k), out, 0);
    let first = show_word(&WordBuf::first_reduct(left, right, laid, k), out, 64);
    let second = show_word(&WordBuf::second_reduct(left, laid, other, k), out, 128);
    Lengths {
        peak,
        first,
        second,
    }
}

// The critical pair of two lines.
fn pair_by(lines: Lines, i: usize, m: usize, k: usize, out: &mut [u8]) -> Option<Lengths>
    requires { 192 ≤ length out.old }
    ensures { PairCalled (answered (pair_of (linesOf lines.entry) i m k)) out.old out.new (Ok result) }
{
    if !pair_counts(lines, i, m, k) {
        return None;
    }
    Some(show_pair(lines, i, m, k, out))
}

// The public call: the critical pair of the lines n and m at a place.
pub fn pair(
    table: &[u8],
    n: u32,
    m: u32,
    place: u32,
    out: &mut [u8],
) -> Result<Option<Lengths>, Refusal>
    ensures { PairCalled (pair_result table.now n m place (length out.old)) out.old out.new result }
{
    if out.len() < 192 {
        return Err(Refusal::Room);
    }
    let table = Table::read(table)?;
    Ok(pair_by(table.lines(), n as usize, m as usize, place as usize, out))
}
