// The check on the lines of a table and the equations of a sheet, and the public call on two files.
ghost use Rattle.std.specs.Prelude.{◌≡◌, ◌*◌, ◌≤◌, ◌&&◌, eqb, length};
ghost use Rattle.layout.specs.Header.{step_width};
ghost use Rattle.layout.specs.Sheets.{sheet_of};
ghost use Rattle.layout.specs.Tables.{table_of};
ghost use Rattle.layout.specs.Slices.{steps_from};
ghost use Rattle.layout.specs.Lines.{equations as equationsOf, lines_with};
ghost use Rattle.chains.specs.Answers.{verdict_as};
ghost use Rattle.checking.specs.Check.{lines_verdict, check_verdict, check_result};

use crate::one_normal::{equations, pairs};
use crate::reduced::reducedness;
use chains::{chains, directions};
use layout::Header;
use layout::judged::{Sheet, Table};
use layout::lent::{Equations, Lines};
use words::{Order, Refusal};

// Conditions 3 to 6, on the equations of a sheet and the lines of a table in this order.
pub fn check_lines(
    order: Order,
    of_sheet: Equations,
    lines: Lines,
    steps: &[u8],
) -> Result<(), Refusal>
    requires { (step_width * steps_from lines.recs.now 0 lines.n ≤ length steps.now) × (length steps.now ≤ 65536) }
    ensures { verdict_as result ≡ lines_verdict order (equationsOf of_sheet.entry) (lines_with steps.now lines.entry) }
{
    chains(of_sheet, lines, steps)?;
    directions(order, lines)?;
    reducedness(lines)?;
    equations(of_sheet, lines)?;
    pairs(lines)
}

// Order, letters and equation count of two files with good headers agree.
fn headers_agree(s: Header, t: Header) -> bool
    ensures { result ≡ eqb s.order.code t.order.code && (eqb s.letters t.letters && eqb s.pairs t.cited) }
{
    s.order == t.order && s.letters == t.letters && s.pairs == t.cited
}

// Conditions 2 to 6 of two judged files.
fn check_judged(sheet: Sheet, table: Table) -> Result<(), Refusal>
    ensures { verdict_as result ≡ check_verdict (sheet_of sheet.entry.bytes.now) (table_of table.entry.bytes.now) }
{
    if !headers_agree(sheet.header, table.header) {
        return Err(Refusal::Headers);
    }
    check_lines(
        table.header.order,
        sheet.equations(),
        table.lines(),
        table.steps(),
    )
}

// The public call: the table is right for the sheet.
pub fn check(sheet: &[u8], table: &[u8]) -> Result<(), Refusal>
    ensures { verdict_as result ≡ check_result sheet.now table.now }
{
    check_judged(Sheet::read(sheet)?, Table::read(table)?)
}
