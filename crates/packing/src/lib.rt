// The packer: a table's lines and steps are written as a file. Every record and step is written anew from what it says, so nothing is
// asked of the lines but that they lie inside. The output is lent, and a function takes the place where its piece starts: the areas are known before.
#![tactic(auto)]

ghost use Rattle.std.specs.Prelude.{◌≡◌, ◌++◌, ◌+◌, ◌*◌, ◌<◌, ◌≤◌, length};
ghost use Rattle.buffers.specs.Written.{written};
ghost use Rattle.buffers.specs.Appended.{Appended};
ghost use Rattle.layout.specs.Header.{table_width, step_width, table_kind, records_at, words_at};
ghost use Rattle.layout.specs.Judged.{Within};
ghost use Rattle.layout.specs.Slices.{steps_from};
ghost use Rattle.packing.specs.Limits.{pair_most};
ghost use Rattle.packing.specs.Packed.{table_room, Packed, packed_table};
ghost use Rattle.packing.specs.Pieces.{pair_piece, words_piece, record_piece, records_piece, step_piece, steps_piece};

use buffers::put_bytes;
use layout::areas::{records_at, steps_at, words_at};
use layout::lent::Lines;
use layout::slices::{step_back, step_place, step_reference};
use layout::{Header, STEP_WIDTH, TABLE, TABLE_WIDTH};
use writing::{put_header, put_record, put_step};

// The bytes of the largest table.
pub const TABLE_ROOM: usize = 51216;

// The record of line j, whose letters start at o; where they end.
#[tactic(auto, using(crate::proofs::PackLaws::line_put, crate::proofs::PackLaws::line_counted))]
fn put_line(out: &mut [u8], at: usize, lines: Lines, j: usize, o: usize) -> usize
    requires { (at + table_width ≤ length out.old) × (j < lines.n) × (o < 65536)
        × (o ≡ length (words_piece lines.recs.now lines.words.now j)) }
    ensures { (result ≡ length (words_piece lines.entry.recs.now lines.entry.words.now (j + 1))) × (result ≤ o + pair_most)
        × (out.new ≡ written out.old at (record_piece lines.entry.recs.now lines.entry.words.now j)) }
{
    let left = lines.left(j).len();
    let right = lines.right(j).len();
    let steps = lines.steps(j);
    let stands = lines.stands(j);
    put_record(out, at, o, left, right, steps, stands);
    o + left + right
}

// The records of the lines, from the place at on.
#[tactic(auto, using(crate::proofs::PackLaws::records_put))]
fn put_records(out: &mut [u8], at: usize, lines: Lines)
    requires { at + table_width * lines.n ≤ length out.old }
    ensures { out.new ≡ written out.old at (records_piece lines.entry.recs.now lines.entry.words.now lines.entry.n) }
{
    let mut o = 0;
    for j in 0..lines.n {
        o = put_line(out, at + TABLE_WIDTH * j, lines, j, o);
    }
}

// Step i, at the place at.
#[tactic(auto, using(crate::proofs::PackLaws::step_copied))]
fn copy_step(out: &mut [u8], at: usize, steps: &[u8], i: usize)
    requires { (at + step_width ≤ length out.old) × (step_width * i + step_width ≤ length steps.now) }
    ensures { out.new ≡ written out.old at (step_piece steps.now i) }
{
    let reference = step_reference(steps, i);
    let back = step_back(steps, i);
    let place = step_place(steps, i);
    put_step(out, at, reference, back, place);
}

// The n steps, from the place at on.
#[tactic(auto, using(crate::proofs::PackLaws::steps_put))]
fn put_steps(out: &mut [u8], at: usize, steps: &[u8], n: usize)
    requires { (at + step_width * n ≤ length out.old) × (step_width * n ≤ length steps.now) }
    ensures { out.new ≡ written out.old at (steps_piece steps.now n) }
{
    for i in 0..n {
        copy_step(out, at + STEP_WIDTH * i, steps, i);
    }
}

// The letters of line j, left then right; where they end.
fn put_pair(tail: &mut [u8], at: usize, lines: Lines, j: usize) -> usize
    requires { (j < lines.n) × (at + pair_most ≤ length tail.old) }
    ensures { Appended tail.old tail.new at result pair_most (pair_piece lines.entry.recs.now lines.entry.words.now j) }
{
    let middle = put_bytes(tail, at, lines.left(j));
    put_bytes(tail, middle, lines.right(j))
}

// The word writer: the letters of the lines, from the start of the words area on; where they end.
fn put_words(tail: &mut [u8], lines: Lines) -> usize
    requires { pair_most * lines.n ≤ length tail.old }
    ensures { Appended tail.old tail.new 0 result (pair_most * lines.entry.n) (words_piece lines.entry.recs.now lines.entry.words.now lines.entry.n) }
{
    let mut end = 0;
    for j in 0..lines.n {
        end = put_pair(tail, end, lines, j);
    }
    end
}

// Records, and the steps behind them.
#[tactic(auto, using(crate::proofs::PackLaws::front_put))]
fn put_front(out: &mut [u8], h: Header, lines: Lines, steps: &[u8])
    requires { (words_at table_kind h ≤ length out.old) × Within table_kind h × (lines.n ≡ h.pairs) × (step_width * h.steps ≤ length steps.now) }
    ensures { out.new ≡ written out.old (records_at table_kind h)
        (records_piece lines.entry.recs.now lines.entry.words.now lines.entry.n ++ steps_piece steps.now h.steps) }
{
    put_records(out, records_at(TABLE, h), lines);
    put_steps(out, steps_at(TABLE, h), steps, h.steps);
}

// Records and steps, and then the words: the output's tail from the words offset on is lent to the word writer. The number of letters is given.
#[tactic(auto, using(crate::proofs::PackLaws::areas_put))]
fn put_areas(out: &mut [u8], h: Header, lines: Lines, steps: &[u8]) -> usize
    requires { (words_at table_kind h + pair_most * h.pairs ≤ length out.old) × Within table_kind h × (lines.n ≡ h.pairs)
        × (step_width * h.steps ≤ length steps.now) }
    ensures { (result ≡ length (words_piece lines.entry.recs.now lines.entry.words.now lines.entry.n)) × (result ≤ pair_most * h.pairs)
        × (out.new ≡ written out.old (records_at table_kind h)
        (records_piece lines.entry.recs.now lines.entry.words.now lines.entry.n ++ steps_piece steps.now h.steps
        ++ words_piece lines.entry.recs.now lines.entry.words.now lines.entry.n)) }
{
    put_front(out, h, lines, steps);
    let start = words_at(TABLE, h);
    put_words(&mut out[start..], lines)
}

// The table with this header and these lines and steps, written to the start of the output; its length is given.
#[tactic(auto, using(crate::proofs::PackLaws::table_room_lem, crate::proofs::PackLaws::table_end))]
pub fn pack(out: &mut [u8], h: Header, lines: Lines, steps: &[u8]) -> usize
    requires { (table_room ≤ length out.old) × Within table_kind h × (lines.n ≡ h.pairs) × (step_width * h.steps ≤ length steps.now)
        × (h.steps ≡ steps_from lines.recs.now 0 h.pairs) }
    ensures { Packed out.old out.new result (packed_table h lines.entry.recs.now steps.now lines.entry.words.now) }
{
    let letters = put_areas(out, h, lines, steps);
    put_header(out, TABLE, h, letters);
    words_at(TABLE, h) + letters
}
