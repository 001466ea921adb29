// Files from standard input, one after the other, each behind its length in four bytes, low byte first.
ghost use Rattle.std.specs.Prelude.{◌≡◌, ◌≤◌, length, IfOk, IfSome};

use crate::ROOM;
use buffers::u32_at;
use intake::read_full;
use std::io;
use std::io::Read;

// The next length; none where the input ends, or says a length that no file has.
fn next_length<R: Read>(reader: &mut R) -> io::Result<Option<usize>>
    ensures { IfOk result (λ k. IfSome k (λ n. n ≤ 65600)) }
{
    let mut bytes = [0u8; 4];
    let n = read_full(reader, &mut bytes)?;
    let k = u32_at(&bytes, 0);
    Ok((n == 4 && k < ROOM).then_some(k))
}

// The next file of the input to the start of buf, and its length; none where the input ends.
pub fn next_file<R: Read>(reader: &mut R, buf: &mut [u8]) -> io::Result<Option<usize>>
    requires { length buf.old ≡ 65600 }
    ensures { IfOk result (λ k. IfSome k (λ n. n ≤ 65600)) }
{
    let Some(k) = next_length(reader)? else {
        return Ok(None);
    };
    let n = read_full(reader, &mut buf[..k])?;
    Ok((n == k).then_some(k))
}
