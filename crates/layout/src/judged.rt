// Judged files: bytes that fit the layout, with their header read. Sheet and table are two types: a table has steps besides, its records are other
// lines, and what one promises of its bytes is said by other definitions.
ghost use Rattle.std.specs.Prelude.{◌≡◌, true, false, ◌*◌, ◌≤◌, length, IfOk, IfErr};
ghost use Rattle.words.specs.declared.refusals.Refusal.TheVariants.{File};
ghost use Rattle.layout.specs.Header.{step_width, sheet_kind, table_kind, header_of, records_of, steps_of, words_of};
ghost use Rattle.rewriting.specs.Sheet.{rules_of};
ghost use Rattle.layout.specs.Sheets.{sheet_fits, sheet_of};
ghost use Rattle.layout.specs.Tables.{table_fits, table_of};
ghost use Rattle.layout.specs.Slices.{steps_from, lines_in, rules_in, equations_in};

use crate::areas::{records_of, steps_of, words_of};
use crate::headers::header_of;
use crate::lent::{Equations, Lines};
use crate::sheets::sheet_fits;
use crate::tables::table_fits;
use crate::{Header, SHEET, TABLE};
use words::Refusal;

// A sheet.
#[derive(Clone, Copy)]
pub struct Sheet<'a> {
    pub bytes: &'a [u8],
    pub header: Header,
    ghost fits: { sheet_fits bytes.now ≡ true },
    ghost read: { header ≡ header_of bytes.now },
}

#[tactic(auto, using(crate::proofs::JudgedLaws::sheet_there, crate::proofs::JudgedLaws::sheet_known, crate::proofs::JudgedLaws::equations_few, crate::proofs::JudgedLaws::equations_inside, crate::proofs::JudgedLaws::equations_of))]
impl<'a> Sheet<'a> {
    // The bytes as a sheet; refusal 1 where they are none.
    pub fn read(bytes: &'a [u8]) -> Result<Sheet<'a>, Refusal>
        ensures fits { IfOk result (λ s. s.bytes.now ≡ bytes.now) }
        ensures none { IfErr result (λ f. (f ≡ File) × (sheet_fits bytes.now ≡ false)) }
    {
        if !sheet_fits(bytes) {
            return Err(Refusal::File);
        }
        Ok(Sheet {
            bytes,
            header: header_of(bytes),
        })
    }

    // Its equations.
    pub fn equations(self) -> Equations<'a>
        ensures recs { result.recs.now ≡ records_of sheet_kind self.entry.bytes.now }
        ensures words { result.words.now ≡ words_of sheet_kind self.entry.bytes.now }
        ensures n { result.n ≡ self.entry.header.pairs }
        ensures equations { equations_in result.recs.now result.words.now result.n ≡ (sheet_of self.entry.bytes.now).equations }
    {
        Equations {
            recs: records_of(self.bytes, SHEET, self.header),
            words: words_of(self.bytes, SHEET, self.header),
            n: self.header.pairs,
        }
    }
}

// A table.
#[derive(Clone, Copy)]
pub struct Table<'a> {
    pub bytes: &'a [u8],
    pub header: Header,
    ghost fits: { table_fits bytes.now ≡ true },
    ghost read: { header ≡ header_of bytes.now },
}

#[tactic(auto, using(crate::proofs::JudgedLaws::table_there, crate::proofs::JudgedLaws::table_known, crate::proofs::JudgedLaws::lines_few, crate::proofs::JudgedLaws::lines_inside, crate::proofs::JudgedLaws::lines_of, crate::proofs::JudgedLaws::table_rules, crate::proofs::JudgedLaws::steps_there, crate::proofs::JudgedLaws::steps_few))]
impl<'a> Table<'a> {
    // The bytes as a table; refusal 1 where they are none.
    pub fn read(bytes: &'a [u8]) -> Result<Table<'a>, Refusal>
        ensures fits { IfOk result (λ t. t.bytes.now ≡ bytes.now) }
        ensures none { IfErr result (λ f. (f ≡ File) × (table_fits bytes.now ≡ false)) }
    {
        if !table_fits(bytes) {
            return Err(Refusal::File);
        }
        Ok(Table {
            bytes,
            header: header_of(bytes),
        })
    }

    // Its lines.
    pub fn lines(self) -> Lines<'a>
        ensures recs { result.recs.now ≡ records_of table_kind self.entry.bytes.now }
        ensures words { result.words.now ≡ words_of table_kind self.entry.bytes.now }
        ensures n { result.n ≡ self.entry.header.pairs }
        ensures rules { rules_in result.recs.now result.words.now 0 result.n ≡ rules_of (table_of self.entry.bytes.now).lines }
        ensures lines { lines_in result.recs.now (steps_of table_kind self.entry.bytes.now) result.words.now result.n ≡ (table_of self.entry.bytes.now).lines }
    {
        Lines {
            recs: records_of(self.bytes, TABLE, self.header),
            words: words_of(self.bytes, TABLE, self.header),
            n: self.header.pairs,
        }
    }

    // Its steps.
    pub fn steps(self) -> &'a [u8]
        ensures steps { result.now ≡ steps_of table_kind self.entry.bytes.now }
        ensures there { step_width * steps_from (records_of table_kind self.entry.bytes.now) 0 self.entry.header.pairs ≤ length result.now }
        ensures few { length result.now ≤ 65536 }
    {
        steps_of(self.bytes, TABLE, self.header)
    }
}
