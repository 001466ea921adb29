// The header: read, and judged once for all kinds of file.
ghost use Rattle.std.specs.Prelude.{◌≡◌};
ghost use Rattle.layout.specs.Header.{header_of, numbers_fit, lengths_fit, header_fits};
ghost use Rattle.layout.specs.Judged.{Readable, Limited};

use crate::areas::words_at;
use crate::{Header, Kind};
use buffers::u16_at;
use words::{Order, order_known};

// What the header says of its file.
#[tactic(auto, unfolding(crate::specs::Header::header_of))]
pub fn header_of(b: &[u8]) -> Header
    requires { Readable b.now }
    ensures { result ≡ header_of b.now }
{
    Header {
        order: Order {
            code: u16_at(b, 2) as u16,
        },
        letters: u16_at(b, 4) as u16,
        pairs: u16_at(b, 6),
        cited: u16_at(b, 8),
        steps: u16_at(b, 10),
    }
}

// The order is known, and the numbers are within the kind's limits.
#[tactic(auto, unfolding(crate::specs::Header::numbers_fit))]
fn numbers_fit(k: Kind, h: Header) -> bool
    ensures { result ≡ numbers_fit k h }
{
    order_known(h.order, h.letters)
        && h.pairs <= k.pairs
        && h.cited <= k.cited
        && h.steps <= k.steps
}

// The words area starts where it is due, inside the file, and the total is the file's size.
#[tactic(auto, unfolding(crate::specs::Header::lengths_fit))]
fn lengths_fit(start: usize, total: usize, due: usize, size: usize) -> bool
    ensures { result ≡ lengths_fit start total due size }
{
    start == due && total == size && due <= size
}

// The slice has a header of this kind, which says h.
#[tactic(auto, using(crate::proofs::HeaderLaws::numbers_say), unfolding(crate::specs::Header::header_fits))]
pub fn header_fits(b: &[u8], k: Kind, h: Header) -> bool
    requires { Readable b.now × Limited k × (h ≡ header_of b.now) }
    ensures { result ≡ header_fits k b.now }
{
    u16_at(b, 0) == k.number
        && numbers_fit(k, h)
        && lengths_fit(u16_at(b, 12), u16_at(b, 14), words_at(k, h), b.len())
}
