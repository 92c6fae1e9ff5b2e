// Writing into a part of a slice: all bytes outside the part stay.
ghost use Rattle.std.specs.Prelude.{◌≡◌, ◌+◌, ◌≤◌, length, replicate};
ghost use Rattle.wire.specs.Bytes.{part, splice};

// Copies all of src to the front of dst. std's copy_from_slice is memmove, a name that the archive would ask for from outside.
fn copy_front(dst: &mut [u8], src: &[u8])
    requires { length src.now ≤ length dst.old }
    ensures { dst.new ≡ splice dst.old 0 src.now }
{
    for k in 0..src.len() {
        dst[k] = src[k];
    }
}

// Copies all of src into dst from at.
pub fn put_bytes(dst: &mut [u8], at: usize, src: &[u8])
    requires { at + length src.now ≤ length dst.old }
    ensures { dst.new ≡ splice dst.old at src.now }
{
    copy_front(&mut dst[at..], src);
}

// Copies n bytes from a place to an earlier one.
pub fn copy_down(s: &mut [u8], from: usize, to: usize, n: usize)
    requires to_le_from { to ≤ from }
    requires n_in_bounds { from + n ≤ length s.old }
    ensures { s.new ≡ splice s.old to (part s.old from n) }
{
    s.copy_within(from..from + n, to);
}

// Zeros in the n bytes from at.
pub fn clear_bytes(s: &mut [u8], at: usize, n: usize)
    requires { at + n ≤ length s.old }
    ensures { s.new ≡ splice s.old at (replicate n 0) }
{
    s[at..at + n].fill(0);
}
