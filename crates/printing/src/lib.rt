// What the program prints for an input: its sheet is completed, and the table is listed.
#![tactic(auto)]

ghost use Rattle.std.specs.Prelude.{◌≤◌, length};
ghost use Rattle.buffers.specs.Appended.{Appended};
ghost use Rattle.packing.specs.Packed.{table_room};
ghost use Rattle.listing.specs.Room.{text_room};
ghost use Rattle.listing.specs.Text.{result_text};
ghost use Rattle.workspace.specs.Areas.{work_room};
ghost use Rattle.printing.specs.Listing.{file_table, listing};

use completing::complete;
use listing::{put_file, put_refusal};
use packing::TABLE_ROOM;
use words::Refusal;
use workspace::areas::WORK_ROOM;

// The bytes of the largest sheet.
pub const SHEET_ROOM: usize = 4368;

// The completion of a file, at the start of the text; where it ends. The table and the work buffer are lent.
fn tell_sheet(file: &[u8], text: &mut [u8], table: &mut [u8], work: &mut [u8]) -> usize
    requires { (text_room ≤ length text.old) × (table_room ≤ length table.old) × (work_room ≤ length work.old) }
    ensures { Appended text.old text.new 0 result text_room (result_text (file_table file.now)) }
{
    match complete(file, table, work) {
        Ok(size) => put_file(text, &table[..size as usize]),
        Err(f) => put_refusal(text, f),
    }
}

// What is printed for an input, at the start of the text; where it ends.
pub fn tell(input: &[u8], text: &mut [u8]) -> usize
    requires { text_room ≤ length text.old }
    ensures { Appended text.old text.new 0 result text_room (listing input.now) }
{
    if SHEET_ROOM < input.len() {
        return put_refusal(text, Refusal::File);
    }
    let mut table = [0u8; TABLE_ROOM];
    let mut work = [0u8; WORK_ROOM];
    tell_sheet(input, text, &mut table, &mut work)
}
