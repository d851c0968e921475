// What the crates above need and the requirements do not name: numbers in bytes, the lowest first.
ghost use Rattle.std.specs.Prelude.{◌≡◌, ◌+◌, ◌^◌, ◌≤◌, ◌<◌, length};
ghost use Rattle.base.specs.Bytes.{le_bytes, little_endian};

// The number in the n bytes of b from place p on.
pub fn little_endian(b: &[u8], p: usize, n: usize) -> u64
    requires { (p + n ≤ length b.now) × (n ≤ 8) }
    ensures { (result ≡ little_endian n b.now p) × (result < 256 ^ n) }
{
    let mut v: u64 = 0;
    for k in (0..n).rev() {
        v = v * 256 + u64::from(b[p + k]);
    }
    v
}

// Fills the slice with the lowest bytes of v.
pub fn put_little_endian(area: &mut [u8], v: u64)
    ensures { area.new ≡ le_bytes (length area.old) v }
{
    let mut rest = v;
    for byte in area.iter_mut() {
        *byte = (rest % 256) as u8;
        rest /= 256;
    }
}
