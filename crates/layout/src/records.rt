// The four bytes that the records of sheets and tables share: offset, left length, right length. Here and in `sheets` and `tables` records are read
// by their place: they are judged before they are a `Sides`.
ghost use Rattle.std.specs.Prelude.{◌≡◌, ◌+◌, ◌<◌, ◌≤◌, length, drop};
ghost use Rattle.layout.specs.Sheets.{sides_width, pair_length, sides_fit};

use buffers::u16_at;
use rewriting::SIDE_LIMIT;

// The letters of both sides of the record at the byte p.
pub fn pair_length(recs: &[u8], p: usize) -> usize
    requires { p + sides_width ≤ length recs.now }
    ensures { (result ≡ pair_length (drop p recs.now)) × (result < 512) }
{
    usize::from(recs[p + 2]) + usize::from(recs[p + 3])
}

// The record at the byte p fits, where the words from o on are left: the offset is the one due, no side has over 32 letters, and the
// letters are there.
#[tactic(auto, unfolding(crate::specs::Sheets::sides_fit))]
pub fn sides_fit(recs: &[u8], p: usize, words: &[u8], o: usize) -> bool
    requires { (p + sides_width ≤ length recs.now) × (o ≤ length words.now) }
    ensures { result ≡ sides_fit o (drop p recs.now) (drop o words.now) }
{
    let left = usize::from(recs[p + 2]);
    let right = usize::from(recs[p + 3]);
    u16_at(recs, p) == o
        && left <= SIDE_LIMIT
        && right <= SIDE_LIMIT
        && left + right <= words.len() - o
}
