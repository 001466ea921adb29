// The house layout: judging and reading sheets and tables. Bytes end here; what stands above speaks of lines.

#![tactic(auto)]

pub mod areas; // where records, steps and words of a file lie
pub mod headers; // the header, for all kinds of file
pub mod judged; // sheets and tables that fit, with their headers read
pub mod lent; // lines and equations, as they are lent
pub mod records; // what the records of all kinds share
pub mod sheets; // sheets, judged and cut
pub mod slices; // the sides of lines and equations, by what their records store
pub mod tables; // tables, judged and cut

use words::Order;

// The bytes of the header's eight numbers, of a sheet's record, of a table's, of a step.
pub const HEADER_SIZE: usize = 16;

pub const SHEET_WIDTH: usize = 4;

pub const TABLE_WIDTH: usize = 8;

pub const STEP_WIDTH: usize = 4;

// The most equations of a sheet, and lines of a table.
pub const MOST_EQUATIONS: usize = 64;

pub const MOST_LINES: usize = 256;

// What sets a kind of file apart: the number that its header stores, its record's width, and the most pairs, cited equations and steps.
#[derive(Clone, Copy, Debug, PartialEq, Eq)]
pub struct Kind {
    pub number: usize,
    pub width: usize,
    pub pairs: usize,
    pub cited: usize,
    pub steps: usize,
}

pub const SHEET: Kind = Kind {
    number: 1,
    width: SHEET_WIDTH,
    pairs: MOST_EQUATIONS,
    cited: 0,
    steps: 0,
};

pub const TABLE: Kind = Kind {
    number: 2,
    width: TABLE_WIDTH,
    pairs: MOST_LINES,
    cited: MOST_EQUATIONS,
    steps: 8192,
};

// What a header says of its file, beside the kind and the two lengths that follow from it.
#[derive(Clone, Copy, Debug, PartialEq, Eq)]
pub struct Header {
    pub order: Order,
    pub letters: u16,
    pub pairs: usize,
    pub cited: usize,
    pub steps: usize,
}
