// The turns, one after the other.
ghost use Rattle.std.specs.Prelude.{◌≡◌, []};
ghost use Rattle.layout.specs.Lines.{equations as equationsOf};
ghost use Rattle.workspace.specs.Waiting.{equations_from};
ghost use Rattle.workspace.specs.Desk.{state};
ghost use Rattle.runs.specs.Ends.{Queued, Ran};

use crate::starting::push_equations;
use layout::lent::Equations;
use turns::turn;
use words::{Order, Refusal};
use workspace::Desk;

// The turns from a state on, until no entry waits.
pub fn run(desk: &mut Desk, order: Order, equations: Equations) -> Result<(), Refusal>
    ensures { Ran order (equationsOf equations.entry) (state desk.old) desk.old desk.new result }
{
    // No range counts these turns: they end when no entry waits.
    while turn(desk, order, equations)? {}
    Ok(())
}

// The turns of a sheet: its equations wait behind what waits. From a desk on which nothing stands that is the completion of the sheet.
pub fn run_sheet(desk: &mut Desk, order: Order, equations: Equations) -> Result<(), Refusal>
    ensures queued { Queued order (equationsOf equations.entry) equations.entry.n desk.old desk.new result }
    ensures started { state desk.old ≡ record { lines = []; waiting = [] }
        → Ran order (equationsOf equations.entry) (record { lines = []; waiting = equations_from 0 equations.entry.n }) desk.old desk.new result }
{
    push_equations(desk, equations.n)?;
    run(desk, order, equations)
}
