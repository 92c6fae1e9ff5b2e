// The state: each member's last committed round in 4 bytes.
ghost use Rattle.std.specs.Prelude.{◌≡◌, length, get_or};
ghost use Prim.Native.Nat.{◌+◌, ◌*◌, ◌≤◌};
ghost use Rattle.consensus.specs.Table.{highest};
ghost use Rattle.held.specs.Rows.{lasts_of};

use crate::whole::Held;

// The last committed round of each member, and what is held.
#[derive(Clone, Copy)]
pub struct State<'s, 'h> {
    pub last: &'s [u8],
    pub held: Held<'h>,
    pub ghost size: { length last.now ≡ held.members * 4 },
}

// The last committed round of the member at place o.
pub fn last_of(state: &[u8], o: usize) -> u32
    requires { o * 4 + 4 ≤ length state.now }
    ensures { result ≡ get_or (lasts_of state.now) o 0 }
{
    room::get_round(state, o)
}

// C: the highest of all.
pub fn highest(state: &[u8]) -> u32
    ensures { result ≡ highest (lasts_of state.now) }
{
    (0..state.len() / 4)
        .map(|o| last_of(state, o))
        .max()
        .unwrap_or(0)
}
