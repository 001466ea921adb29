// Words of stop letters and how they are compared.
// An order goes in by value, so that an order with more to it than a code can join.

#![tactic(auto)]

mod letters; // the tests that a query makes of its header and its words
mod orders; // the two orders, and the choice between them
mod refusals; // why a call is refused

ghost use Rattle.std.specs.Prelude.{◌≡◌};
ghost use Rattle.words.specs.Comparing.{compare_result};
ghost use Rattle.words.specs.Answer.{compared_as};

pub use letters::{letters_below, order_known, query_word};
pub use orders::compare_by;
pub use refusals::Refusal;
use std::cmp::Ordering;

// The order of a sheet or table, by the code its header has: 0 shortlex, 1 kachinuki. It is no enum: a call may ask by any code, also from C,
// and `compare_result` says what is answered for each.
#[derive(Clone, Copy, Debug, PartialEq, Eq)]
pub struct Order {
    pub code: u16,
}

// The public call: compares two words in an order over n letters.
#[tactic(auto, unfolding(crate::specs::Comparing::compare_result))]
pub fn compare(order: Order, letters: u16, a: &[u8], b: &[u8]) -> Result<Ordering, Refusal>
    ensures { compared_as result ≡ compare_result order letters a.now b.now }
{
    if !order_known(order, letters) {
        return Err(Refusal::File);
    }
    if !query_word(a, letters) || !query_word(b, letters) {
        return Err(Refusal::Word);
    }
    Ok(compare_by(order, a, b))
}
