// The public call: a sheet is completed to a table.
ghost use Rattle.std.specs.Prelude.{◌≤◌, cond, length};
ghost use Rattle.words.specs.Refusal.{refused};
ghost use Rattle.layout.specs.Sheets.{sheet_fits, sheet_of};
ghost use Rattle.packing.specs.Packed.{table_room};
ghost use Rattle.workspace.specs.Areas.{work_room};
ghost use Rattle.runs.specs.Completion.{complete};
ghost use Rattle.completing.specs.Calls.{table_bytes, complete_result, Delivered, CompleteCalled};

use crate::clearing::clear;
use crate::closing::close;
use layout::judged::Sheet;
use packing::TABLE_ROOM;
use runs::run_sheet;
use words::Refusal;
use workspace::Desk;
use workspace::areas::WORK_ROOM;

// The turns of a sheet, then the closing check.
fn complete_sheet(sheet: Sheet, out: &mut [u8], work: &mut [u8]) -> Result<u32, Refusal>
    requires { (table_room ≤ length out.old) × (work_room ≤ length work.old) }
    ensures { Delivered (table_bytes (complete (sheet_of sheet.entry.bytes.now))) out.old out.new work.old work.new result }
{
    let mut desk = Desk::start(work);
    run_sheet(&mut desk, sheet.header.order, sheet.equations())?;
    close(out, &desk, sheet)
}

// The completion of what is judged to be a sheet.
fn complete_judged(sheet: &[u8], out: &mut [u8], work: &mut [u8]) -> Result<u32, Refusal>
    requires { (table_room ≤ length out.old) × (work_room ≤ length work.old) }
    ensures { Delivered (cond (sheet_fits sheet.now) (table_bytes (complete (sheet_of sheet.now))) (refused 1 0))
        out.old out.new work.old work.new result }
{
    complete_sheet(Sheet::read(sheet)?, out, work)
}

// The public call: the table of a sheet goes to the start of the output; its length is given.
pub fn complete(sheet: &[u8], out: &mut [u8], work: &mut [u8]) -> Result<u32, Refusal>
    ensures { CompleteCalled (complete_result sheet.now (length out.old) (length work.old))
        out.old out.new work.old work.new result }
{
    if out.len() < TABLE_ROOM || work.len() < WORK_ROOM {
        return Err(Refusal::Room);
    }
    let r = complete_judged(sheet, out, work);
    clear(work);
    r
}
