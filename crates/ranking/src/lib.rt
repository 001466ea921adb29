// Journeys ranked by fare, as a public call on files.

#![tactic(auto)]

mod places; // the places of priced and of unpriced journeys, in order

// How many journeys are priced, and how many are not.
#[derive(Clone, Copy, Debug, PartialEq, Eq)]
pub struct Counts {
    pub priced: usize,
    pub unpriced: usize,
}
