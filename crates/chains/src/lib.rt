// The check's third condition: each line's chain leads from its left to its right word, and each line's left is greater than its right.

#![tactic(auto)]

mod directed; // second part: each line's left word is greater than its right word
mod followed; // first part: each line's chain ends at its right word
mod steps; // one step of a chain

pub use directed::directions;
pub use followed::chains;
use layout::lent::{Equations, Lines};

// What the steps of chains may cite, and the steps of all lines.
#[derive(Clone, Copy)]
struct Cited<'a> {
    equations: Equations<'a>,
    lines: Lines<'a>,
    steps: &'a [u8],
}
