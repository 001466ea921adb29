// What journeys cost.
ghost use Rattle.std.specs.Prelude.{◌≡◌};
ghost use Rattle.layout.specs.Lines.{rules};
ghost use Rattle.prices.specs.Listed.{prices as prices_of};
ghost use Rattle.pricing.specs.Journeys.{journeys_of, fares_with, journey_fares};
ghost use Rattle.pricing.specs.Kept.{kept_list};
ghost use Rattle.pricing.specs.Faring.{fares_as};

use crate::Numbers;
use crate::clashes::one_fare;
use crate::fares::journey_fares;
use crate::keeping::Kept;
use crate::lent::Journeys;
use crate::stored::Fares;
use layout::lent::LinesUpTo;
use prices::lent::Prices;
use words::Refusal;

// What each journey costs by the prices kept, if no word has two fares.
#[tactic(auto, unfolding(crate::specs::Journeys::fares_with))]
fn price_kept<const MOST: usize>(
    lines: LinesUpTo<MOST>,
    kept: &Kept,
    of: Numbers,
    journeys: Journeys,
) -> Result<Fares, Refusal>
    ensures { fares_as result ≡ fares_with of.letters (rules lines.entry) of.allowance (kept_list kept.now)
        (journeys_of journeys.entry.letters.now journeys.entry.lengths.now) }
{
    one_fare(kept)?;
    journey_fares(lines, kept, of, journeys)
}

// What each journey costs: all price words are reduced, no word has two fares, and then journey by journey.
#[tactic(auto, unfolding(crate::specs::Journeys::journey_fares))]
pub fn price_journeys<const MOST: usize>(
    lines: LinesUpTo<MOST>,
    prices: Prices,
    of: Numbers,
    journeys: Journeys,
) -> Result<Fares, Refusal>
    ensures { fares_as result ≡ journey_fares of.letters (rules lines.entry) of.allowance (prices_of prices.entry)
        (journeys_of journeys.entry.letters.now journeys.entry.lengths.now) }
{
    let kept = Kept::reduced(lines, prices, of.allowance)?;
    price_kept(lines, &kept, of, journeys)
}
