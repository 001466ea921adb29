// A price's word and fare, read where its record says that they lie; `Prices` reads them by these.
ghost use Rattle.std.specs.Prelude.{◌≡◌, ◌+◌, ◌*◌, ◌≤◌, length};
ghost use Rattle.prices.specs.Price.{word_limit};
ghost use Rattle.prices.specs.Files.{price_width};
ghost use Rattle.prices.specs.Slices.{price_word, price_fare, PricePlaced};

use crate::PRICE_WIDTH;
use buffers::{u16_at, u32_at};

// The word of the price j.
#[tactic(auto, using(crate::proofs::SliceLaws::word_read, crate::proofs::SliceLaws::word_short))]
pub fn price_word<'a>(recs: &[u8], words: &'a [u8], j: usize) -> &'a [u8]
    requires { PricePlaced recs.now words.now j }
    ensures { (result.now ≡ price_word recs.now words.now j) × (length result.now ≤ word_limit) }
{
    let start = u16_at(recs, PRICE_WIDTH * j);
    let end = start + usize::from(recs[PRICE_WIDTH * j + 2]);
    &words[start..end]
}

// The fare of the price j.
#[tactic(auto, unfolding(crate::specs::Slices::price_fare))]
pub fn price_fare(recs: &[u8], j: usize) -> usize
    requires { price_width * j + price_width ≤ length recs.now }
    ensures { result ≡ price_fare recs.now j }
{
    u32_at(recs, PRICE_WIDTH * j + 4)
}
