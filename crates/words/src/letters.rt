// The tests that a query makes of its header and its words.

ghost use Rattle.std.specs.Prelude.{◌≡◌};
ghost use Rattle.words.specs.Word.{letters_below};
ghost use Rattle.words.specs.Comparing.{order_known, query_word};

use crate::Order;

// Every letter of the word is below n.
pub fn letters_below(w: &[u8], n: u16) -> bool
    ensures { result ≡ letters_below n w.now }
{
    w.iter().all(|x| u16::from(*x) < n)
}

// A word that a query may have.
#[tactic(auto, unfolding(crate::specs::Comparing::query_word))]
pub fn query_word(w: &[u8], n: u16) -> bool
    ensures { result ≡ query_word n w.now }
{
    w.len() <= 64 && letters_below(w, n)
}

// An order and a number of letters that a header may name.
#[tactic(auto, unfolding(crate::specs::Comparing::order_known))]
pub fn order_known(order: Order, n: u16) -> bool
    ensures { result ≡ order_known order n }
{
    order.code <= 1 && (1..=32).contains(&n)
}
