// Prices as they are lent: the records, and the letters that these name. They are no `Sides`: a price has one word, and a fare of four bytes.
ghost use Rattle.std.specs.Prelude.{◌≡◌, ◌*◌, ◌<◌, ◌≤◌, length, is_some, IfSome};
ghost use Rattle.prices.specs.Price.{word_limit, fare_limit};
ghost use Rattle.prices.specs.Files.{price_width, price_kind, prices_fit, read_prices};
ghost use Rattle.prices.specs.Slices.{price_word, price_fare, PricesInside, prices_in};
ghost use Rattle.prices.specs.Lent.{prices_inside_prop};

use crate::records::prices_fit;
use crate::slices::{price_fare, price_word};

// The first n records, at most 256, each with its letters inside the words.
#[derive(Clone, Copy)]
pub struct Prices<'a> {
    pub recs: &'a [u8],
    pub words: &'a [u8],
    pub n: usize,
    ghost inside: { PricesInside recs.now words.now n } by { prices_inside_prop recs.now words.now n },
    ghost few: { n ≤ price_kind.pairs },
}

impl<'a> Prices<'a> {
    // The n prices, if their records and words fit.
    #[tactic(auto, using(crate::proofs::FitsLaws::judged_inside, crate::proofs::FitsLaws::judged_prices))]
    pub fn judged(recs: &'a [u8], words: &'a [u8], n: usize) -> Option<Prices<'a>>
        requires { (length recs.now ≡ price_width * n) × (n ≤ price_kind.pairs) }
        ensures fits { is_some result ≡ prices_fit 0 n recs.now words.now }
        ensures prices { IfSome result (λ ps. prices_in ps.recs.now ps.words.now ps.n ≡ read_prices n recs.now words.now) }
    {
        if prices_fit(recs, words, n) {
            Some(Prices { recs, words, n })
        } else {
            None
        }
    }

    // The word of the price j.
    #[tactic(auto, unfolding(crate::specs::Slices::PricesInside))]
    pub fn word(self, j: usize) -> &'a [u8]
        requires { j < self.n }
        ensures { (result.now ≡ price_word self.entry.recs.now self.entry.words.now j) × (length result.now ≤ word_limit) }
    {
        price_word(self.recs, self.words, j)
    }

    // The fare of the price j.
    #[tactic(auto, using(crate::proofs::SliceLaws::price_there, crate::proofs::SliceLaws::price_low))]
    pub fn fare(self, j: usize) -> usize
        requires { j < self.n }
        ensures { (result ≡ price_fare self.entry.recs.now j) × (result ≤ fare_limit) }
    {
        price_fare(self.recs, j)
    }
}
