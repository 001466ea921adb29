// Journeys as they are lent: their letters end to end, and their lengths.
ghost use Rattle.std.specs.Prelude.{◌≡◌, true, false, ◌*◌, ◌≤◌, length, is_some, IfSome};
ghost use Rattle.pricing.specs.Journeys.{journey_limit, add_up, journeys_fit};

use crate::JOURNEY_LIMIT;

// Not too many journeys, whose lengths add up to the letters there are.
#[derive(Clone, Copy)]
pub struct Journeys<'a> {
    pub letters: &'a [u8],
    pub lengths: &'a [u8],
    ghost fit: { journeys_fit letters.now lengths.now ≡ true },
}

impl<'a> Journeys<'a> {
    // The journeys, if they fit.
    pub fn new(letters: &'a [u8], lengths: &'a [u8]) -> Option<Journeys<'a>>
        ensures fits { is_some result ≡ journeys_fit letters.now lengths.now }
        ensures same { IfSome result (λ js. (js.letters.now ≡ letters.now) × (js.lengths.now ≡ lengths.now)) }
    {
        if journeys_fit(letters, lengths) {
            Some(Journeys { letters, lengths })
        } else {
            None
        }
    }
}

// The lengths, added up.
fn add_up(lengths: &[u8]) -> usize
    requires { length lengths.now ≤ journey_limit }
    ensures { result ≡ add_up lengths.now }
{
    lengths.iter().map(|n| usize::from(*n)).sum()
}

// Not too many journeys, whose lengths add up.
#[tactic(auto, unfolding(crate::specs::Journeys::journeys_fit))]
pub fn journeys_fit(journeys: &[u8], lengths: &[u8]) -> bool
    ensures { result ≡ journeys_fit journeys.now lengths.now }
{
    lengths.len() <= JOURNEY_LIMIT && add_up(lengths) == journeys.len()
}
