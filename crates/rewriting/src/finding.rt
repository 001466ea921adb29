// The replacement due, one rule after the other: each is looked for only before the earliest place found so far, and only where it has room.
ghost use Rattle.std.specs.Prelude.{◌≡◌};
ghost use Rattle.rewriting.specs.Found.{or_earlier};

use crate::Found;
use crate::standing::first_before;

// What was found, or a later line where its left word stands at an earlier place of the word: at one place the line before goes first.
pub fn or_earlier(found: Option<Found>, line: usize, left: &[u8], word: &[u8]) -> Option<Found>
    ensures { result ≡ or_earlier found line left.now word.now }
{
    let end = found.map_or(word.len() + 1, |f| f.place);
    let place = first_before(left, word, end);
    if place < end {
        Some(Found { place, line })
    } else {
        found
    }
}
