// A list of items of one size that stand one behind the other in a slice: the members, genesis, the parents of a header, a table's rows.
ghost use Rattle.std.specs.Prelude.{◌≡◌, ℕ, ◌+◌, ◌-◌, ◌*◌, ◌≤◌, ◌<◌, length, take, drop};
ghost use Rattle.std.specs.Slice.Iter.{chunks_exact_rest, chunks_exact_size, chunks_exact_steps};
ghost use Rattle.std.specs.Iterator.Runs.{EveryRun, IsChunksExactRun};
ghost use Rattle.wire.specs.Bytes.{part};
ghost use Rattle.wire.specs.Items.{items, item_in, first_of, has_part, ascends, keys};

use std::slice::ChunksExact;

// Item i of those from at, as a part of the slice.
pub fn item<'a>(list: &'a [u8], size: usize, at: usize, i: usize) -> &'a [u8]
    requires { at + i * size + size ≤ length list.now }
    ensures { result.now ≡ item_in size list.now at i }
{
    let from = at + i * size;
    let end = from + size;
    &list[from..end]
}

// The n items from at, one by one.
pub fn items<'a>(list: &'a [u8], size: usize, at: usize, n: usize) -> ChunksExact<'a, u8>
    requires in_bounds { at + n * size ≤ length list.now }
    requires le_size { 1 ≤ size }
    ensures rest { chunks_exact_rest result ≡ take (at + n * size - at) (drop at list.now) }
    ensures size { chunks_exact_size result ≡ size }
    ensures runs { EveryRun (chunks_exact_steps {A = ℕ}) (λ p. 0 < chunks_exact_size p.from → IsChunksExactRun p (chunks_exact_size p.from) (chunks_exact_rest p.from)) }
{
    list[at..at + n * size].chunks_exact(size)
}

// Whether an item has what, from off.
pub fn has(item: &[u8], off: usize, what: &[u8]) -> bool
    requires { off + length what.now ≤ length item.now }
    ensures { result ≡ has_part off what.now item.now }
{
    crate::bytes::same(item, off, what, 0, what.len())
}

// The first of the n items from at that has what, from off.
pub fn find(list: &[u8], size: usize, at: usize, n: usize, off: usize, what: &[u8]) -> Option<usize>
    requires size_in_bounds { at + n * size ≤ length list.now }
    requires le_size { 1 ≤ size }
    requires what_bound { off + length what.now ≤ size }
    ensures { result ≡ first_of (has_part off what.now) (items size list.now at n) 0 }
{
    items(list, size, at, n).position(|x| has(x, off, what))
}

// Whether the first 32 bytes of the n items from at are strictly ascending.
pub fn ascending(list: &[u8], size: usize, at: usize, n: usize) -> bool
    requires size_in_bounds { at + n * size ≤ length list.now }
    requires le_size { 32 ≤ size }
    ensures { result ≡ ascends (keys (items size list.now at n)) }
{
    items(list, size, at, n)
        .zip(items(list, size, at, n).skip(1))
        .all(|(x, y)| crate::bytes::less32(x, 0, y, 0))
}
