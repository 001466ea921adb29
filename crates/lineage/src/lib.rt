// The new line's lineage, noted behind the steps of the lines made so far.

#![tactic(auto)]

pub mod across; // the middle of a lineage
mod replaying; // the steps down to a normal word

ghost use Rattle.std.specs.Prelude.{◌++◌, ◌+◌, ◌≤◌, length};
ghost use Rattle.rewriting.specs.Sheet.{rules_of};
ghost use Rattle.workspace.specs.Areas.{most_steps};
ghost use Rattle.workspace.specs.Desk.{state, Notes};
ghost use Rattle.lineage.specs.Lineage.{across as acrossOf, steps_down, backwards, lineage};
ghost use Rattle.lineage.specs.Noting.{middle, Replays, Traces};

use across::{middle_length, note_middle};
use replaying::note_word;
use workspace::{Desk, Entry};

// From a normal word up to the entry's word that it comes from, and across the entry.
fn trace_up(desk: &mut Desk, cited: usize, e: Entry, back: bool, one: &[u8], up: usize)
    requires { (cited ≤ 64) × (desk.old.nums.steps + (up + length (acrossOf 0 e)) ≤ most_steps) × (length one.now ≤ 128)
        × Replays (rules_of (state desk.old).lines) up one.now }
    ensures { Notes desk.old desk.old.nums.steps
        (backwards (steps_down cited (rules_of (state desk.old).lines) up one.now) ++ middle back cited e) desk.new }
{
    let at = desk.nums.steps;
    note_word(desk, cited, at, true, one, up);
    note_middle(desk, at + up, cited, e, back);
}

// The lineage of the next line: up from one normal word in so many steps, across the entry, and down to the other in so many.
pub fn trace(
    desk: &mut Desk,
    cited: usize,
    e: Entry,
    back: bool,
    one: &[u8],
    up: usize,
    other: &[u8],
    down: usize,
)
    requires { (cited ≤ 64) × (desk.old.nums.steps + (up + (length (acrossOf 0 e) + down)) ≤ most_steps)
        × (length one.now ≤ 128) × (length other.now ≤ 128)
        × Replays (rules_of (state desk.old).lines) up one.now × Replays (rules_of (state desk.old).lines) down other.now }
    ensures { Traces desk.old desk.new
        (lineage (steps_down cited (rules_of (state desk.old).lines) up one.now) (middle back cited e)
        (steps_down cited (rules_of (state desk.old).lines) down other.now)) }
{
    let at = desk.nums.steps + up + middle_length(e);
    trace_up(desk, cited, e, back, one, up);
    note_word(desk, cited, at, false, other, down);
}
