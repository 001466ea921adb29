// Sheets and tables in slices: the sides of a line or an equation, where its record says that they lie; the parts of a step, by its number.
// Left and right have a function each, as in `lent`. The lengths by themselves are public, and nothing here calls them.
ghost use Rattle.std.specs.Prelude.{◌≡◌, ◌+◌, ◌*◌, ◌<◌, ◌≤◌, length};
ghost use Rattle.rewriting.specs.Sheet.{side_limit};
ghost use Rattle.layout.specs.Header.{table_width, step_width};
ghost use Rattle.layout.specs.Sheets.{sides_width};
ghost use Rattle.layout.specs.Slices.{left_at, right_at, Placed, left_length_by, right_length_by, step_in};

use crate::{STEP_WIDTH, TABLE_WIDTH};
use buffers::u16_at;

// The left word of the record that starts at the byte p.
#[tactic(auto, using(crate::proofs::SliceLaws::left_read, crate::proofs::SliceLaws::left_short))]
pub fn left_at<'a>(recs: &[u8], words: &'a [u8], p: usize) -> &'a [u8]
    requires { Placed sides_width recs.now words.now p }
    ensures { (result.now ≡ left_at recs.now words.now p) × (length result.now ≤ side_limit) }
{
    let start = u16_at(recs, p);
    let end = start + usize::from(recs[p + 2]);
    &words[start..end]
}

// The right word of the record that starts at the byte p.
#[tactic(auto, using(crate::proofs::SliceLaws::right_read, crate::proofs::SliceLaws::right_short))]
pub fn right_at<'a>(recs: &[u8], words: &'a [u8], p: usize) -> &'a [u8]
    requires { Placed sides_width recs.now words.now p }
    ensures { (result.now ≡ right_at recs.now words.now p) × (length result.now ≤ side_limit) }
{
    let start = u16_at(recs, p) + usize::from(recs[p + 2]);
    let end = start + usize::from(recs[p + 3]);
    &words[start..end]
}

// The length of line j's left word.
pub fn left_length(recs: &[u8], j: usize) -> usize
    requires { table_width * j + table_width ≤ length recs.now }
    ensures { (result ≡ left_length_by recs.now j) × (result < 256) }
{
    usize::from(recs[TABLE_WIDTH * j + 2])
}

// The length of line j's right word.
pub fn right_length(recs: &[u8], j: usize) -> usize
    requires { table_width * j + table_width ≤ length recs.now }
    ensures { (result ≡ right_length_by recs.now j) × (result < 256) }
{
    usize::from(recs[TABLE_WIDTH * j + 3])
}

// What step i refers to: an equation, or a line behind the equations.
#[tactic(auto, unfolding(crate::specs::Tables::step_of))]
pub fn step_reference(steps: &[u8], i: usize) -> usize
    requires { step_width * i + step_width ≤ length steps.now }
    ensures { (result ≡ (step_in steps.now i).reference) × (result < 65536) }
{
    u16_at(steps, STEP_WIDTH * i)
}

// Step i goes back.
#[tactic(auto, unfolding(crate::specs::Tables::step_of))]
pub fn step_back(steps: &[u8], i: usize) -> bool
    requires { step_width * i + step_width ≤ length steps.now }
    ensures { result ≡ (step_in steps.now i).back }
{
    steps[STEP_WIDTH * i + 2] == 1
}

// Where step i takes place.
#[tactic(auto, unfolding(crate::specs::Tables::step_of))]
pub fn step_place(steps: &[u8], i: usize) -> u8
    requires { step_width * i + step_width ≤ length steps.now }
    ensures { result ≡ (step_in steps.now i).place }
{
    steps[STEP_WIDTH * i + 3]
}
