// The public call: a table is listed.
ghost use Rattle.std.specs.Prelude.{◌≡◌, true, ◌≤◌, length};
ghost use Rattle.buffers.specs.Appended.{Appended};
ghost use Rattle.layout.specs.Tables.{table_fits, table_of};
ghost use Rattle.listing.specs.Room.{text_room};
ghost use Rattle.listing.specs.Text.{table_text};
ghost use Rattle.listing.specs.Calls.{list_result, ListCalled};

use crate::TEXT_ROOM;
use crate::tables::put_table;
use layout::headers::header_of;
use layout::judged::Table;
use words::Refusal;

// The text of a judged table, at the start of the output; where it ends.
fn put_judged(out: &mut [u8], table: Table) -> usize
    requires { text_room ≤ length out.old }
    ensures { Appended out.old out.new 0 result text_room (table_text (table_of table.entry.bytes.now).lines) }
{
    put_table(out, table.lines())
}

// The text of a table that is known to fit, as completion's own is, and is not judged again, at the start of the output; where it ends.
#[tactic(auto, using(layout::proofs::JudgedLaws::table_there))]
pub fn put_file(out: &mut [u8], table: &[u8]) -> usize
    requires { (text_room ≤ length out.old) × (table_fits table.now ≡ true) }
    ensures { Appended out.old out.new 0 result text_room (table_text (table_of table.now).lines) }
{
    put_judged(
        out,
        Table {
            bytes: table,
            header: header_of(table),
        },
    )
}

// The public call: the text of a table goes to the start of the output.
pub fn list(table: &[u8], out: &mut [u8]) -> Result<u32, Refusal>
    ensures { ListCalled (list_result table.now (length out.old)) out.old out.new result }
{
    if out.len() < TEXT_ROOM {
        return Err(Refusal::Room);
    }
    Ok(put_judged(out, Table::read(table)?) as u32)
}
