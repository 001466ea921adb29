// The end of a completion: the lines of the state are checked, and packed to the table.
ghost use Rattle.std.specs.Prelude.{◌≤◌, length};
ghost use Rattle.layout.specs.Sheets.{sheet_of};
ghost use Rattle.packing.specs.Packed.{table_room, Packed};
ghost use Rattle.workspace.specs.Desk.{state};
ghost use Rattle.runs.specs.Completion.{state_table, close};
ghost use Rattle.completing.specs.Calls.{table_bytes, Replied};

use checking::check_lines;
use layout::Header;
use layout::judged::Sheet;
use packing::pack;
use words::Refusal;
use workspace::Desk;

// The table of the state, with all its lines and their flags, written to the start of the output; its length is given.
fn pack_state(out: &mut [u8], desk: &Desk, sheet: Sheet) -> u32
    requires { table_room ≤ length out.old }
    ensures { Packed out.old out.new result (state_table (sheet_of sheet.entry.bytes.now) (state desk.now)) }
{
    let h = Header {
        pairs: desk.nums.lines,
        cited: sheet.header.pairs,
        steps: desk.nums.steps,
        ..sheet.header
    };
    let size = pack(out, h, desk.lines(), desk.steps());
    size as u32
}

// The closing check, and the table where it is met.
pub fn close(out: &mut [u8], desk: &Desk, sheet: Sheet) -> Result<u32, Refusal>
    requires { table_room ≤ length out.old }
    ensures { Replied (table_bytes (close (sheet_of sheet.entry.bytes.now) (state desk.now))) out.old out.new result }
{
    check_lines(
        sheet.header.order,
        sheet.equations(),
        desk.lines(),
        desk.steps(),
    )?;
    Ok(pack_state(out, desk, sheet))
}
