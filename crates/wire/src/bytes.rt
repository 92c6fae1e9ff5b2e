// Equality and lexicographic order of byte strings.
ghost use Rattle.std.specs.Prelude.{◌≡◌, ◌+◌, ◌≤◌, length};
ghost use Rattle.wire.specs.Bytes.{part, alike, less};

// Whether the n bytes of a from i are those of b from j.
pub fn same(a: &[u8], i: usize, b: &[u8], j: usize, n: usize) -> bool
    requires n_in_bounds { i + n ≤ length a.now }
    requires n_in_bounds_2 { j + n ≤ length b.now }
    ensures { result ≡ alike (part a.now i n) (part b.now j n) }
{
    a[i..i + n] == b[j..j + n]
}

// Whether the 32 bytes of a from i are those of b from j.
pub fn same32(a: &[u8], i: usize, b: &[u8], j: usize) -> bool
    requires i_in_bounds { i + 32 ≤ length a.now }
    requires j_in_bounds { j + 32 ≤ length b.now }
    ensures { result ≡ alike (part a.now i 32) (part b.now j 32) }
{
    same(a, i, b, j, 32)
}

// Whether the 32 bytes of a from i come strictly before those of b from j.
pub fn less32(a: &[u8], i: usize, b: &[u8], j: usize) -> bool
    requires i_in_bounds { i + 32 ≤ length a.now }
    requires j_in_bounds { j + 32 ≤ length b.now }
    ensures { result ≡ less (part a.now i 32) (part b.now j 32) }
{
    // Byte by byte: std's order of slices takes twice the time here.
    for k in 0..32 {
        let x = a[i + k];
        let y = b[j + k];
        if x != y {
            return x < y;
        }
    }
    false // equal: neither comes first
}
