// Price files: judged, cut and read.

#![tactic(auto)]

pub mod lent; // prices as they are lent, with what is known of them
pub mod records; // the records of a price file, judged one behind the other
pub mod slices; // a price's word and fare, by what its record stores

// The bytes of a price file's record.
pub const PRICE_WIDTH: usize = 8;

// The most prices of a file.
pub const MOST_PRICES: usize = 256;

// The most letters of a price word, and the highest fare.
pub const WORD_LIMIT: usize = 64;

pub const FARE_LIMIT: usize = 1000000;
