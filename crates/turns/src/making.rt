// The new line: the limits on it, its lineage, and what it brings about.
ghost use Rattle.std.specs.Prelude.{◌≡◌, ◌+◌, ◌<◌, ◌≤◌, length};
ghost use Rattle.rewriting.specs.Sheet.{side_limit, rules_of};
ghost use Rattle.workspace.specs.Areas.{most_lines, most_steps};
ghost use Rattle.workspace.specs.Waiting.{new_line};
ghost use Rattle.workspace.specs.Desk.{state};
ghost use Rattle.new_lines.specs.NewLine.{grow as growOf, make_line};
ghost use Rattle.lineage.specs.Lineage.{across};
ghost use Rattle.turns.specs.Outcomes.{Settled, Reaches, chain};

use crate::Reduced;
use lineage::across::middle_length;
use lineage::trace;
use new_lines::grow;
use rewriting::SIDE_LIMIT;
use words::Refusal;
use workspace::areas::{MOST_LINES, MOST_STEPS};
use workspace::{Desk, Entry};

// The new line joins with its lineage: up from the one normal word, across the entry, down to the other.
fn join_traced(
    desk: &mut Desk,
    cited: usize,
    e: Entry,
    back: bool,
    left: Reduced,
    right: Reduced,
    steps: usize,
) -> Result<(), Refusal>
    requires { (cited ≤ 64) × (desk.old.nums.lines < most_lines) × (length left.normal.now ≤ side_limit) × (length right.normal.now ≤ side_limit)
        × (steps ≡ left.count + (length (across 0 e) + right.count)) × (desk.old.nums.steps + steps ≤ most_steps)
        × Reaches (rules_of (state desk.old).lines) left × Reaches (rules_of (state desk.old).lines) right }
    ensures { Settled desk.old desk.new result (growOf (new_line left.entry.normal.now right.entry.normal.now
        (chain cited (rules_of (state desk.old).lines) e back left.entry right.entry)) (state desk.old)) }
{
    let one = left.word.as_slice();
    let other = right.word.as_slice();
    let up = usize::from(left.count);
    let down = usize::from(right.count);
    trace(desk, cited, e, back, one, up, other, down);
    grow(desk, left.normal.as_slice(), right.normal.as_slice(), steps)
}

// The limits on the new line in their order, then the line itself.
pub fn make_line(
    desk: &mut Desk,
    cited: usize,
    e: Entry,
    back: bool,
    left: Reduced,
    right: Reduced,
) -> Result<(), Refusal>
    requires { (cited ≤ 64) × Reaches (rules_of (state desk.old).lines) left × Reaches (rules_of (state desk.old).lines) right }
    ensures { Settled desk.old desk.new result (make_line (new_line left.entry.normal.now right.entry.normal.now
        (chain cited (rules_of (state desk.old).lines) e back left.entry right.entry)) (state desk.old)) }
{
    if SIDE_LIMIT < left.normal.len() || SIDE_LIMIT < right.normal.len() {
        return Err(Refusal::LongSide);
    }
    if MOST_LINES <= desk.nums.lines {
        return Err(Refusal::ManyLines);
    }
    let steps = usize::from(left.count) + (middle_length(e) + usize::from(right.count));
    if MOST_STEPS < desk.nums.steps + steps {
        return Err(Refusal::ManySteps);
    }
    join_traced(desk, cited, e, back, left, right, steps)
}
