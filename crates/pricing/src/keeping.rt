// Prices kept: each with its normal word. There is no heap, so the words lie in one array of a fixed size.
ghost use Rattle.std.specs.Prelude.{◌≡◌, ◌<◌, ◌≤◌, [], length, get_or};
ghost use Rattle.layout.specs.Lines.{rules};
ghost use Rattle.prices.specs.Price.{fare_limit};
ghost use Rattle.prices.specs.Slices.{price_fare};
ghost use Rattle.prices.specs.Listed.{prices as prices_of};
ghost use Rattle.pricing.specs.Answers.{answers_of};
ghost use Rattle.pricing.specs.Prices.{reduced_price};
ghost use Rattle.pricing.specs.Kept.{kept_as};

use layout::lent::LinesUpTo;
use prices::MOST_PRICES;
use prices::lent::Prices;
use reducing::normal_of;
use rewriting::word_buf::WordBuf;
use std::array::from_fn;
use words::Refusal;

// Prices, and the normal word of each.
#[derive(Drop)]
pub struct Kept<'a> {
    pub prices: Prices<'a>,
    pub words: [WordBuf; MOST_PRICES],
}

impl<'a> Kept<'a> {
    // The prices, their words reduced by the lines, one after the other.
    #[tactic(auto, using(crate::proofs::KeepingLaws::keeping))]
    pub fn reduced<const MOST: usize>(
        lines: LinesUpTo<MOST>,
        prices: Prices<'a>,
        allowance: u16,
    ) -> Result<Kept<'a>, Refusal>
        ensures { kept_as result ≡ answers_of (reduced_price (rules lines.entry) allowance) (prices_of prices.entry) }
    {
        let mut words = from_fn(|_| WordBuf::new());
        for j in 0..prices.n {
            words[j] = normal_of(lines, prices.word(j), allowance)?.word;
        }
        Ok(Kept { prices, words })
    }

    // The normal word of the price j.
    pub fn word(&self, j: usize) -> &[u8]
        requires { j < self.now.prices.n }
        ensures { result.now ≡ get_or self.now.words j [] }
    {
        let words = &self.words;
        words[j].as_slice()
    }

    // The fare of the price j.
    pub fn fare(&self, j: usize) -> usize
        requires { j < self.now.prices.n }
        ensures { (result ≡ price_fare self.now.prices.recs.now j) × (result ≤ fare_limit) }
    {
        self.prices.fare(j)
    }
}
