// Rules on plain words: replacing a part of a word, normal words, critical pairs. The definitions and laws come first;
// the word surgery follows them.

#![tactic(auto)]

pub mod finding; // the replacement due, one rule after the other
pub mod reducts; // the two words of an overlap
pub mod replacing; // a word with a part replaced, in a lent buffer
pub mod standing; // where a word stands, and which words agree
pub mod word_buf; // a word in memory of its own

// The most letters of a side, in an equation or in a line.
pub const SIDE_LIMIT: usize = 32;

// A replacement that is due: its place and its line's number.
#[derive(Clone, Copy, Debug, PartialEq, Eq)]
pub struct Found {
    pub place: usize,
    pub line: usize,
}
