// Numbers in decimal.
ghost use Rattle.std.specs.Prelude.{◌≡◌, ◌++◌, ◌+◌, ◌<◌, ◌≤◌, length};
ghost use Rattle.buffers.specs.Appended.{Appended};
ghost use Rattle.listing.specs.Decimal.{digit_byte, decimal};

use buffers::put_bytes;

// A digit's byte, as the definition has it.
fn digit(n: usize) -> u8
    requires { n < 10 }
    ensures { result ≡ digit_byte n }
{
    b'0' + n as u8
}

// A number in decimal; where it ends.
pub fn put_decimal(out: &mut [u8], at: usize, n: usize) -> usize
    requires { at + length (decimal n) ≤ length out.old }
    ensures { Appended out.old out.new at result (length (decimal n)) (decimal n) }
{
    if n < 10 {
        put_bytes(out, at, &[digit(n)])
    } else {
        let middle = put_decimal(out, at, n / 10);
        put_bytes(out, middle, &[digit(n % 10)])
    }
}

// A text with a number behind it; where it ends.
pub fn put_with_number(out: &mut [u8], at: usize, text: &[u8], n: usize) -> usize
    requires { at + (length text.now + length (decimal n)) ≤ length out.old }
    ensures { Appended out.old out.new at result (length text.now + length (decimal n)) (text.now ++ decimal n) }
{
    let middle = put_bytes(out, at, text);
    put_decimal(out, middle, n)
}
