// The queries on a table, as public calls on files: one replacement, the normal word, yes or no, a critical pair.

#![tactic(auto)]

mod on_words; // one replacement, the normal word, yes or no
mod pairing; // a critical pair

pub use on_words::{normal, one, same};
pub use pairing::pair;

// The word reached: its length, and the number of replacements that led to it.
#[derive(Clone, Copy, Debug, PartialEq, Eq)]
pub struct Reached {
    pub length: usize,
    pub count: u16,
}

// The lengths of the peak and the reducts of a critical pair.
#[derive(Clone, Copy, Debug, PartialEq, Eq)]
pub struct Lengths {
    pub peak: usize,
    pub first: usize,
    pub second: usize,
}
