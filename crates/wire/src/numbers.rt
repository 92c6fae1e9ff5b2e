// Little-endian numbers.
ghost use Rattle.std.specs.Prelude.{◌≡◌, [], ◌∷◌, ◌+◌, ◌≤◌, ◌<◌, length};
ghost use Rattle.wire.specs.Bytes.{part, splice, word, bytes};

// The number in the four bytes of s from at.
pub fn read_u32(s: &[u8], at: usize) -> u32
    requires { at + 4 ≤ length s.now }
    ensures { result ≡ word (part s.now at 4) }
{
    u32::from_le_bytes(s[at..at + 4].try_into().unwrap())
}

// The number in the eight bytes of s from at.
pub fn read_u64(s: &[u8], at: usize) -> u64
    requires { at + 8 ≤ length s.now }
    ensures { result ≡ word (part s.now at 8) }
{
    u64::from_le_bytes(s[at..at + 8].try_into().unwrap())
}

// Puts x into the byte of s at a place.
pub fn put_u8(s: &mut [u8], at: usize, x: u8)
    requires { at < length s.old }
    ensures { s.new ≡ splice s.old at (x ∷ []) }
{
    s[at] = x;
}

// Puts x into the four bytes of s from at.
pub fn put_u32(s: &mut [u8], at: usize, x: u32)
    requires { at + 4 ≤ length s.old }
    ensures { s.new ≡ splice s.old at (bytes 4 x) }
{
    s[at..at + 4].copy_from_slice(&x.to_le_bytes());
}

// Puts x into the eight bytes of s from at.
pub fn put_u64(s: &mut [u8], at: usize, x: u64)
    requires { at + 8 ≤ length s.old }
    ensures { s.new ≡ splice s.old at (bytes 8 x) }
{
    s[at..at + 8].copy_from_slice(&x.to_le_bytes());
}
