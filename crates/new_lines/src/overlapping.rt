// Overlaps of two lines wait, places rising.
ghost use Rattle.std.specs.Prelude.{◌≡◌, ◌<◌, ◌≤◌};
ghost use Rattle.words.specs.Counting.{in_turn};
ghost use Rattle.rewriting.specs.Pairs.{is_pair};
ghost use Rattle.rewriting.specs.Sheet.{side_limit, line_at};
ghost use Rattle.workspace.specs.Desk.{state, Leaves};
ghost use Rattle.new_lines.specs.NewLine.{overlap_at, overlaps_of, overlaps_with, overlaps_of_new};

use rewriting::standing::is_pair;
use words::Refusal;
use workspace::{Desk, Entry, Overlap};

// The lines n and m make a critical pair at the place k.
fn make_pair(desk: &Desk, n: usize, m: usize, k: usize) -> bool
    requires { (n < desk.now.nums.lines) × (m < desk.now.nums.lines) }
    ensures { result ≡ is_pair n m k (line_at (state desk.now).lines n).left (line_at (state desk.now).lines m).left }
{
    let lines = desk.lines();
    is_pair(n, m, k, lines.left(n), lines.left(m))
}

// The lines n and m at the place k.
fn overlap_at(desk: &mut Desk, n: usize, m: usize, k: usize) -> Result<(), Refusal>
    requires { (n < desk.old.nums.lines) × (m < desk.old.nums.lines) × (k < 256) }
    ensures { Leaves desk.old desk.new result (overlap_at n m k (state desk.old)) }
{
    if !make_pair(desk, n, m, k) {
        return Ok(());
    }
    let overlap = Overlap {
        n: n as u8,
        m: m as u8,
        place: k as u8,
    };
    desk.push(Entry::OfOverlap(overlap))
}

// The lines n and m at the first places in turn.
fn overlaps_to(desk: &mut Desk, n: usize, m: usize, places: usize) -> Result<(), Refusal>
    requires { (n < desk.old.nums.lines) × (m < desk.old.nums.lines) × (places ≤ side_limit) }
    ensures { Leaves desk.old desk.new result (in_turn (overlap_at n m) 0 places (state desk.old)) }
{
    for k in 0..places {
        overlap_at(desk, n, m, k)?;
    }
    Ok(())
}

// The lines n and m at every place of n's left word.
fn overlaps_of(desk: &mut Desk, n: usize, m: usize) -> Result<(), Refusal>
    requires { (n < desk.old.nums.lines) × (m < desk.old.nums.lines) }
    ensures { Leaves desk.old desk.new result (overlaps_of n m (state desk.old)) }
{
    let places = desk.lines().left(n).len();
    overlaps_to(desk, n, m, places)
}

// The new line and the line m, if m stands.
fn overlaps_with(desk: &mut Desk, new: usize, m: usize) -> Result<(), Refusal>
    requires { (new < desk.old.nums.lines) × (m < desk.old.nums.lines) }
    ensures { Leaves desk.old desk.new result (overlaps_with new m (state desk.old)) }
{
    if !desk.lines().stands(m) {
        return Ok(());
    }
    overlaps_of(desk, new, m)?;
    overlaps_of(desk, m, new)
}

// The new line and each line before it, in turn.
fn overlaps_before(desk: &mut Desk, new: usize) -> Result<(), Refusal>
    requires { new < desk.old.nums.lines }
    ensures { Leaves desk.old desk.new result (in_turn (overlaps_with new) 0 new (state desk.old)) }
{
    for m in 0..new {
        overlaps_with(desk, new, m)?;
    }
    Ok(())
}

// The new line and the lines before it, then the new line and itself.
pub fn overlaps_of_new(desk: &mut Desk, new: usize) -> Result<(), Refusal>
    requires { new < desk.old.nums.lines }
    ensures { Leaves desk.old desk.new result (overlaps_of_new new (state desk.old)) }
{
    overlaps_before(desk, new)?;
    overlaps_of(desk, new, new)
}
