// Numbers in bytes, low byte first.
ghost use Rattle.std.specs.Prelude.{◌≡◌, ◌+◌, ◌<◌, ◌≤◌, length};
ghost use Rattle.buffers.specs.Bytes.{u16_at, u32_at};

// The u16 at the place p.
pub fn u16_at(s: &[u8], p: usize) -> usize
    requires { p + 2 ≤ length s.now }
    ensures { (result ≡ u16_at s.now p) × (result < 65536) }
{
    usize::from(u16::from_le_bytes([s[p], s[p + 1]]))
}

// The u32 at the place p.
pub fn u32_at(s: &[u8], p: usize) -> usize
    requires { p + 4 ≤ length s.now }
    ensures { (result ≡ u32_at s.now p) × (result < 4294967296) }
{
    u32::from_le_bytes([s[p], s[p + 1], s[p + 2], s[p + 3]]) as usize
}
