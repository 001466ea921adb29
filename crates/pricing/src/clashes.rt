// Two fares for one word, among the prices kept.
ghost use Rattle.std.specs.Prelude.{◌≡◌, ◌<◌};
ghost use Rattle.chains.specs.Answers.{verdict_as};
ghost use Rattle.pricing.specs.Prices.{fare_verdict};
ghost use Rattle.pricing.specs.Kept.{kept_list};
ghost use Rattle.pricing.specs.Clashes.{kept_two, kept_differs};

use crate::keeping::Kept;
use rewriting::standing::same_word;
use words::Refusal;

// The prices k and j have two fares for one word. Fares are compared first: they are two numbers.
#[tactic(auto, using(crate::proofs::ClashLaws::comparing))]
fn two_fares(kept: &Kept, k: usize, j: usize) -> bool
    requires { (k < kept.now.prices.n) × (j < k) }
    ensures { result ≡ kept_two kept.now.words kept.now.prices.recs.now k j }
{
    kept.fare(k) != kept.fare(j) && same_word(kept.word(k), kept.word(j))
}

// The price k has another fare than an earlier one for the same word.
fn differs(kept: &Kept, k: usize) -> bool
    requires { k < kept.now.prices.n }
    ensures { result ≡ kept_differs kept.now.words kept.now.prices.recs.now k }
{
    (0..k).any(|j| two_fares(kept, k, j))
}

// The lowest of the prices that differs from an earlier one is refusal 17.
#[tactic(auto, using(crate::proofs::ClashLaws::clashing))]
pub fn one_fare(kept: &Kept) -> Result<(), Refusal>
    ensures { verdict_as result ≡ fare_verdict (kept_list kept.now) }
{
    for k in 0..kept.prices.n {
        if differs(kept, k) {
            return Err(Refusal::TwoFares(k as u16));
        }
    }
    Ok(())
}
