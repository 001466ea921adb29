// Pieces put into an output, each behind the one before.
ghost use Rattle.std.specs.Prelude.{◌+◌, ◌≤◌, length};
ghost use Rattle.buffers.specs.Appended.{Appended};

use crate::copying::put;

// Bytes as they are; where they end.
pub fn put_bytes(out: &mut [u8], at: usize, bytes: &[u8]) -> usize
    requires { at + length bytes.now ≤ length out.old }
    ensures { Appended out.old out.new at result (length bytes.now) bytes.now }
{
    put(out, at, bytes);
    at + bytes.len()
}
