// Entries of the list: member index 1, round 4, digest 32.
ghost use Rattle.std.specs.Prelude.{◌≡◌, map, ◌+◌, ◌*◌, ◌≤◌, ◌<◌, length, take};
ghost use Rattle.wire.specs.Bytes.{splice};
ghost use Rattle.table.specs.Rows.{count_of};
ghost use Rattle.room.specs.Numbers.{numbers_of};
ghost use Rattle.consensus.specs.Table.{cert_at};
ghost use Rattle.held.specs.Rows.{held_of};
ghost use Rattle.update.specs.Update.{entry_of, entries_of};

use crate::{ENTRY, Places};
use held::Held;

// The certificate at place i becomes entry k of the list.
fn put_entry(held: &Held, i: usize, list: &mut [u8], k: usize)
    requires i_bound { i < count_of held.now.table.now }
    requires k_in_bounds { k * 37 + 37 ≤ length list.old }
    ensures { list.new ≡ splice list.old (k * 37) (entry_of (cert_at (held_of held.now.table.now) i)) }
{
    let at = k * ENTRY;
    wire::numbers::put_u8(list, at, held.origin_at(i) as u8);
    wire::numbers::put_u32(list, at + 1, held.round_at(i));
    wire::parts::put_bytes(list, at + 5, held.digest_at(i));
}

// The certificates at these places become the entries of the list from at.
pub fn put_list(places: &Places, list: &mut [u8], at: usize)
    requires { (at + places.now.count) * 37 ≤ length list.old }
    ensures { list.new ≡ splice list.old (at * 37) (entries_of (map (cert_at (held_of places.now.held.table.now)) (take places.now.count (numbers_of places.now.room.now)))) }
{
    for i in 0..places.count {
        put_entry(&places.held, places.at(i), list, at + i);
    }
}
