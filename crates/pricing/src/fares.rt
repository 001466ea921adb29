// What each journey costs, looked up by its normal word.
ghost use Rattle.std.specs.Prelude.{◌≡◌};
ghost use Rattle.layout.specs.Lines.{rules};
ghost use Rattle.pricing.specs.Answers.{answers_of};
ghost use Rattle.pricing.specs.Prices.{fare_of};
ghost use Rattle.pricing.specs.Journeys.{journeys_of, journey_fare};
ghost use Rattle.pricing.specs.Kept.{kept_list};
ghost use Rattle.pricing.specs.Fares.{fare_by, fared_as};
ghost use Rattle.pricing.specs.Faring.{fares_as};

use crate::keeping::Kept;
use crate::lent::Journeys;
use crate::stored::Fares;
use crate::{FARES_SIZE, Numbers};
use layout::lent::LinesUpTo;
use reducing::normal_of;
use rewriting::standing::same_word;
use words::{Refusal, query_word};

// The fare of a normal word: that of the first of the prices with this word, if there is one. The prices are in the file's order, so that each is
// asked.
#[tactic(auto, using(crate::proofs::FareLaws::looking))]
fn look_up(kept: &Kept, word: &[u8]) -> Option<usize>
    ensures { fare_by result ≡ fare_of (kept_list kept.now) word.now }
{
    for j in 0..kept.prices.n {
        if same_word(kept.word(j), word) {
            return Some(kept.fare(j));
        }
    }
    None
}

// The fare of a journey, by the lines and the prices kept, if it has one.
#[tactic(auto, using(crate::proofs::FareLaws::journey_short), unfolding(crate::specs::Journeys::journey_fare))]
fn journey_fare<const MOST: usize>(
    lines: LinesUpTo<MOST>,
    kept: &Kept,
    of: Numbers,
    word: &[u8],
) -> Result<Option<usize>, Refusal>
    ensures { fared_as result ≡ journey_fare of.letters (rules lines.entry) of.allowance (kept_list kept.now) word.now }
{
    if !query_word(word, of.letters) {
        return Err(Refusal::Word);
    }
    let a = normal_of(lines, word, of.allowance)?;
    Ok(look_up(kept, a.word.as_slice()))
}

// The fare of each journey, in turn.
#[tactic(auto, using(crate::proofs::FareLaws::faring))]
pub fn journey_fares<const MOST: usize>(
    lines: LinesUpTo<MOST>,
    kept: &Kept,
    of: Numbers,
    journeys: Journeys,
) -> Result<Fares, Refusal>
    ensures { fares_as result ≡ answers_of (journey_fare of.letters (rules lines.entry) of.allowance (kept_list kept.now))
        (journeys_of journeys.entry.letters.now journeys.entry.lengths.now) }
{
    let mut fares = [None; FARES_SIZE];
    let mut start = 0;
    for (j, length) in journeys.lengths.iter().enumerate() {
        let end = start + usize::from(*length);
        fares[j] = journey_fare(lines, kept, of, &journeys.letters[start..end])?;
        start = end;
    }
    Ok(Fares {
        of: fares,
        n: journeys.lengths.len(),
    })
}
