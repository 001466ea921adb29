// The areas of a file, one behind the other: records, steps, words.
ghost use Rattle.std.specs.Prelude.{◌≡◌, ◌<◌, ◌≤◌, length};
ghost use Rattle.layout.specs.Header.{header_size, header_of, records_at, steps_at, words_at, records_of, steps_of, words_of};
ghost use Rattle.layout.specs.Judged.{Within, Head};

use crate::{HEADER_SIZE, Header, Kind, STEP_WIDTH};

// Where the records start: behind the header.
#[tactic(auto, unfolding(crate::specs::Header::records_at))]
pub fn records_at(k: Kind, h: Header) -> usize
    ensures { (result ≡ records_at k h) × (result ≤ header_size) }
{
    HEADER_SIZE
}

// Where the steps start: behind the records.
#[tactic(auto, using(crate::proofs::HeaderLaws::words_early))]
pub fn steps_at(k: Kind, h: Header) -> usize
    requires { Within k h }
    ensures { (result ≡ steps_at k h) × (result < 65536) }
{
    records_at(k, h) + k.width * h.pairs
}

// Where the words area starts: behind the steps.
#[tactic(auto, using(crate::proofs::HeaderLaws::words_early))]
pub fn words_at(k: Kind, h: Header) -> usize
    requires { Within k h }
    ensures { (result ≡ words_at k h) × (result < 65536) }
{
    steps_at(k, h) + STEP_WIDTH * h.steps
}

// The records of a file with a good header.
#[tactic(auto, using(crate::proofs::AreaLaws::records_are))]
pub fn records_of(b: &[u8], k: Kind, h: Header) -> &[u8]
    requires { Head k h (length b.now) × (h ≡ header_of b.now) }
    ensures { result.now ≡ records_of k b.now }
{
    let start = records_at(k, h);
    let end = steps_at(k, h);
    &b[start..end]
}

// The steps of a file with a good header.
#[tactic(auto, using(crate::proofs::AreaLaws::steps_are))]
pub fn steps_of(b: &[u8], k: Kind, h: Header) -> &[u8]
    requires { Head k h (length b.now) × (h ≡ header_of b.now) }
    ensures { result.now ≡ steps_of k b.now }
{
    let start = steps_at(k, h);
    let end = words_at(k, h);
    &b[start..end]
}

// The words area of a file with a good header.
#[tactic(auto, using(crate::proofs::AreaLaws::words_are))]
pub fn words_of(b: &[u8], k: Kind, h: Header) -> &[u8]
    requires { Head k h (length b.now) × (h ≡ header_of b.now) }
    ensures { result.now ≡ words_of k b.now }
{
    let start = words_at(k, h);
    &b[start..]
}
