// What journeys cost: price words reduced once and kept, two fares for one word, each journey looked up by its normal word.

#![tactic(auto)]

mod clashes; // two fares for one word
mod fares; // each journey's fare
mod journeys; // what journeys cost
mod keeping; // price words reduced, one after the other
mod lent; // journeys, as they are lent
mod stored; // fares, as they are stored

pub use journeys::price_journeys;
pub use lent::{Journeys, journeys_fit};
pub use stored::Fares;

// The most journeys of a call.
pub const JOURNEY_LIMIT: usize = 64;

// As many fares as a byte can name.
pub const FARES_SIZE: usize = 256;

// The numbers that go with a table and a price list: letters, and the allowance of each word.
#[derive(Clone, Copy, Debug, PartialEq, Eq)]
pub struct Numbers {
    pub letters: u16,
    pub allowance: u16,
}
