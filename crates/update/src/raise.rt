// Last committed rounds raised.
ghost use Rattle.std.specs.Prelude.{◌≡◌, map, ◌*◌, ◌<◌, length, take};
ghost use Rattle.table.specs.Rows.{count_of};
ghost use Rattle.room.specs.Numbers.{numbers_of};
ghost use Rattle.consensus.specs.Table.{cert_at};
ghost use Rattle.consensus.specs.Listing.{raise};
ghost use Rattle.consensus.proofs.ClearOnce.{raise_all};
ghost use Rattle.held.specs.Rows.{held_of, lasts_of};

use crate::Places;
use held::Held;

// Raises the last committed round of the origin of the certificate at place i to its round, if that is higher.
fn raise_one(state: &mut [u8], held: &Held, i: usize)
    requires state_len { length state.old ≡ held.now.members * 4 }
    requires i_bound { i < count_of held.now.table.now }
    ensures { lasts_of state.new ≡ raise (cert_at (held_of held.now.table.now) i) (lasts_of state.old) }
{
    let o = held.origin_at(i);
    let r = held.round_at(i);
    if held::state::last_of(state, o) < r {
        room::put_round(state, o, r);
    }
}

// The same for all these places.
pub fn raise_all(state: &mut [u8], places: &Places)
    requires { length state.old ≡ places.now.held.members * 4 }
    ensures { lasts_of state.new ≡ raise_all (map (cert_at (held_of places.now.held.table.now)) (take places.now.count (numbers_of places.now.room.now))) (lasts_of state.old) }
{
    for i in 0..places.count {
        raise_one(state, &places.held, places.at(i));
    }
}
