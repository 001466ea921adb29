// Bytes copied into a lent buffer.
ghost use Rattle.std.specs.Prelude.{◌≡◌, ◌+◌, ◌≤◌, length};
ghost use Rattle.buffers.specs.Written.{written};

// Copies src into dst from the place at on. (Most pieces have a few bytes, for which a call of the library's copy takes longer.)
pub fn put(dst: &mut [u8], at: usize, src: &[u8])
    requires { at + length src.now ≤ length dst.old }
    ensures { dst.new ≡ written dst.old at src.now }
{
    for (i, x) in src.iter().enumerate() {
        dst[at + i] = *x;
    }
}
