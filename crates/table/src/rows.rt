// What a table holds.
ghost use Rattle.std.specs.Prelude.{◌≡◌, true, ℕ, ◌+◌, ◌-◌, ◌*◌, ◌≤◌, ◌<◌, ltb, length, take, drop};
ghost use Rattle.std.specs.Slice.Iter.{chunks_exact_rest, chunks_exact_size, chunks_exact_steps};
ghost use Rattle.std.specs.Iterator.Runs.{EveryRun, IsChunksExactRun};
ghost use Rattle.wire.specs.Items.{item_in};
ghost use Rattle.table.specs.Rows.{count_of, places, shaped};

use std::slice::ChunksExact;

// Whether the bytes are a table of rows of this size: a place or more, no byte over, and a count that the places can hold.
pub fn shape(table: &[u8], size: usize) -> bool
    ensures { result ≡ shaped size table.now }
{
    if table.len() < 8 {
        return false;
    }
    if size == 0 {
        return false;
    }
    let body = table.len() - 8;
    if body % size != 0 {
        return false;
    }
    let k = body / size;
    if k == 0 {
        return false;
    }
    wire::numbers::read_u64(table, 0) <= k as u64
}

// How many rows are in use.
pub fn count(table: &[u8]) -> usize
    requires { 8 ≤ length table.now }
    ensures { result ≡ count_of table.now }
{
    wire::numbers::read_u64(table, 0) as usize
}

// Row i, as a part of the table.
pub fn row<'a>(table: &'a [u8], size: usize, i: usize) -> &'a [u8]
    requires { 8 + i * size + size ≤ length table.now }
    ensures { result.now ≡ item_in size table.now 8 i }
{
    wire::items::item(table, size, 8, i)
}

// The rows in use, one by one.
pub fn rows<'a>(table: &'a [u8], size: usize) -> ChunksExact<'a, u8>
    requires { shaped size table.now ≡ true }
    ensures rest { chunks_exact_rest result ≡ take (8 + count_of table.now * size - 8) (drop 8 table.now) }
    ensures size { chunks_exact_size result ≡ size }
    ensures runs { EveryRun (chunks_exact_steps {A = ℕ}) (λ p. 0 < chunks_exact_size p.from → IsChunksExactRun p (chunks_exact_size p.from) (chunks_exact_rest p.from)) }
{
    wire::items::items(table, size, 8, count(table))
}

// Whether there is a place for a row more.
pub fn room(table: &[u8], size: usize) -> bool
    requires { shaped size table.now ≡ true }
    ensures { result ≡ ltb (count_of table.now) (places size table.now) }
{
    let body = table.len() - 8;
    count(table) < body / size
}
