// A new line joins the table: the lines it makes reducible are deleted, and its overlaps wait.

#![tactic(auto)]

mod deleting; // lines that the new rule reduces
mod overlapping; // overlaps of the new line

ghost use Rattle.std.specs.Prelude.{◌+◌, ◌<◌, ◌≤◌, length};
ghost use Rattle.rewriting.specs.Sheet.{side_limit};
ghost use Rattle.workspace.specs.Waiting.{new_line, with_line};
ghost use Rattle.workspace.specs.Areas.{most_lines, most_steps};
ghost use Rattle.workspace.specs.Work.{steps_noted};
ghost use Rattle.workspace.specs.Desk.{state, Makes};
ghost use Rattle.new_lines.specs.NewLine.{overlaps_of_new, grow};

use words::Refusal;
use workspace::Desk;

// The new line is made, and its overlaps wait.
fn add_and_overlap(desk: &mut Desk, left: &[u8], right: &[u8], steps: usize) -> Result<(), Refusal>
    requires { (desk.old.nums.lines < most_lines) × (length left.now ≤ side_limit) × (length right.now ≤ side_limit)
        × (desk.old.nums.steps + steps ≤ most_steps) }
    ensures { Makes desk.old (desk.old.nums.lines + 1) (desk.old.nums.steps + steps) desk.new result
        (overlaps_of_new desk.old.nums.lines
        (with_line (new_line left.now right.now (steps_noted desk.old.work.now desk.old.nums.steps steps))
        (state desk.old))) }
{
    let new = desk.nums.lines;
    desk.add_line(left, right, steps);
    overlapping::overlaps_of_new(desk, new)
}

// Deletions, the new line, its overlaps.
pub fn grow(desk: &mut Desk, left: &[u8], right: &[u8], steps: usize) -> Result<(), Refusal>
    requires { (desk.old.nums.lines < most_lines) × (length left.now ≤ side_limit) × (length right.now ≤ side_limit)
        × (desk.old.nums.steps + steps ≤ most_steps) }
    ensures { Makes desk.old (desk.old.nums.lines + 1) (desk.old.nums.steps + steps) desk.new result
        (grow (new_line left.now right.now (steps_noted desk.old.work.now desk.old.nums.steps steps))
        (state desk.old)) }
{
    deleting::sweep(desk, left)?;
    add_and_overlap(desk, left, right, steps)
}
