// The state of a completion in one lent buffer: the lines made so far, and the ring of waiting entries.

#![tactic(auto)]

pub mod areas; // where the records, steps, letters and entries lie
mod desk; // the work buffer, with the numbers that fit it
mod lines; // lines are made and deleted
mod noting; // steps for the line that is made next
mod reading; // the lines, read from the whole buffer
mod ring; // waiting entries come and go
mod starting; // nothing stands yet

pub use desk::Desk;

// An overlap of two lines: m's left word laid at the place in n's.
#[derive(Clone, Copy, Debug, PartialEq, Eq)]
pub struct Overlap {
    pub n: u8,
    pub m: u8,
    pub place: u8,
}

// A waiting entry names an equation, a deleted line or an overlap.
#[derive(Clone, Copy, Debug, PartialEq, Eq)]
pub enum Entry {
    OfEquation(u8),
    OfDeleted(u8),
    OfOverlap(Overlap),
}

// How much of the buffer is in use: lines, their letters and steps, the oldest entry's place in the ring, and how many wait.
#[derive(Clone, Copy, Debug, PartialEq, Eq)]
pub struct Nums {
    pub lines: usize,
    pub letters: usize,
    pub steps: usize,
    pub head: usize,
    pub count: usize,
}
