// Fares as they are stored. There is no heap, so they lie in one array of a fixed size.
ghost use Rattle.std.specs.Prelude.{◌≤◌};
ghost use Rattle.pricing.specs.Journeys.{journey_limit};

use crate::FARES_SIZE;

// The fares of the first n journeys, at most 64.
#[derive(Drop)]
pub struct Fares {
    pub of: [Option<usize>; FARES_SIZE],
    pub n: usize,
    ghost few: { n ≤ journey_limit },
}
