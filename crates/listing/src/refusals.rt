// A refusal as text.
ghost use Rattle.std.specs.Prelude.{◌≤◌, length};
ghost use Rattle.words.specs.Answer.{refused_by};
ghost use Rattle.words.specs.Refusal.{refused};
ghost use Rattle.buffers.specs.Appended.{Appended};
ghost use Rattle.listing.specs.Decimal.{decimal};
ghost use Rattle.listing.specs.Room.{refusal_most};
ghost use Rattle.listing.specs.Text.{result_text};

use crate::decimals::put_with_number;
use buffers::put_bytes;
use words::Refusal;

// A refusal's number and place, at the start of the output; where it ends.
fn put_reason(out: &mut [u8], number: usize, place: usize) -> usize
    requires { (refusal_most ≤ length out.old) × (length (decimal number) ≤ 3) × (length (decimal place) ≤ 5) }
    ensures { Appended out.old out.new 0 result refusal_most (result_text (refused number place)) }
{
    let first = put_with_number(out, 0, b"refused ", number);
    let second = put_with_number(out, first, b" at ", place);
    put_bytes(out, second, b"\n")
}

// A refusal at the start of the output; where it ends.
pub fn put_refusal(out: &mut [u8], f: Refusal) -> usize
    requires { refusal_most ≤ length out.old }
    ensures { Appended out.old out.new 0 result refusal_most (result_text (refused_by f)) }
{
    put_reason(out, usize::from(f.number()), usize::from(f.place()))
}
