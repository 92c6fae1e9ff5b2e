// Some items of a list, one behind the other at the front of a buffer.
ghost use Rattle.std.specs.Prelude.{◌≡◌, ◌+◌, ◌*◌, ◌≤◌, length};
ghost use Rattle.synchronizer.specs.Picked.{Put};

// An item behind the m before it, where it is wanted. Answers how many there are then.
pub fn put_if(out: &mut [u8], size: usize, m: usize, item: &[u8], wanted: bool) -> usize
    requires item_len { length item.now ≡ size }
    requires size_in_bounds { m * size + size ≤ length out.old }
    requires le_size { 1 ≤ size }
    ensures { Put size m item.now wanted out.old result out.new }
{
    if !wanted {
        return m;
    }
    wire::parts::put_bytes(out, m * size, item);
    m + 1
}
