// A table as text: each piece is put into the output behind the one before. The output is lent; a function takes the place where its piece starts,
// and gives the place where it ends. A struct of the two would read no plainer: `Appended` says both of every piece.

#![tactic(auto)]

mod calls; // the public call
mod decimals; // numbers in decimal
mod letters; // words as text
mod refusals; // a refusal as text
mod tables; // a table's lines as text

pub use calls::{list, put_file};
pub use refusals::put_refusal;

// The bytes of an output that the text of every table fits.
pub const TEXT_ROOM: usize = 18967;
