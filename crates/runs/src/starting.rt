// The start of a run: every equation waits, in the order of the sheet.
ghost use Rattle.std.specs.Prelude.{◌≤◌};
ghost use Rattle.words.specs.Counting.{in_turn};
ghost use Rattle.workspace.specs.Desk.{state, Leaves};
ghost use Rattle.runs.specs.Ends.{append_equation};

use words::Refusal;
use workspace::{Desk, Entry};

// The first n equations wait behind the others.
pub fn push_equations(desk: &mut Desk, n: usize) -> Result<(), Refusal>
    requires { n ≤ 64 }
    ensures { Leaves desk.old desk.new result (in_turn append_equation 0 n (state desk.old)) }
{
    for k in 0..n {
        desk.push(Entry::OfEquation(k as u8))?;
    }
    Ok(())
}
