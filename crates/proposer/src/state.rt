// The proposer's state: own key 32, round 4, parent count 1, waiting count 1, parents 32 x 32 as given, waiting 64 x (digest 32, worker 4) in the order
// in which they came.
ghost use Rattle.std.specs.Prelude.{◌≡◌, ◌∷◌, [], ◌+◌, ◌*◌, ◌%◌, ◌/◌, ◌≤◌, ◌<◌, length};
ghost use Rattle.wire.specs.Bytes.{part, splice};
ghost use Rattle.proposer.specs.State.{round_in, parent_count, waiting_count, valid_state, due_header, zeros, digests_of, next_round, advanced, added, emptied};

use crate::pace::Pace;

pub const STATE: usize = 3366;

// The round that the next header is for.
pub fn round(state: &[u8]) -> u32
    requires { 3366 ≤ length state.now }
    ensures { result ≡ round_in state.now }
{
    wire::numbers::read_u32(state, 32)
}

pub fn parent_count(state: &[u8]) -> u8
    requires { 3366 ≤ length state.now }
    ensures { result ≡ parent_count state.now }
{
    state[36]
}

pub fn waiting_count(state: &[u8]) -> u8
    requires { 3366 ≤ length state.now }
    ensures { result ≡ waiting_count state.now }
{
    state[37]
}

// The parents, one behind the other.
pub fn parents(state: &[u8; STATE]) -> &[u8]
    requires { parent_count state.now ≤ 32 }
    ensures { result.now ≡ part state.now 38 (parent_count state.now * 32) }
{
    let n = parent_count(state) as usize;
    &state[38..38 + n * 32]
}

// The waiting digests with their workers, one behind the other.
pub fn waiting(state: &[u8; STATE]) -> &[u8]
    requires { waiting_count state.now ≤ 64 }
    ensures { result.now ≡ part state.now 1062 (waiting_count state.now * 36) }
{
    let n = waiting_count(state) as usize;
    &state[1062..1062 + n * 36]
}

// Whether the bytes are a proposer's state.
pub fn is_state(state: &[u8]) -> bool
    ensures { result ≡ valid_state state.now }
{
    let Some(state) = state.as_array::<STATE>() else {
        return false;
    };
    if round(state) < 1 {
        return false;
    }
    if 32 < parent_count(state) {
        return false;
    }
    waiting_count(state) <= 64
}

// A state's bytes as an array.
pub(crate) fn whole(state: &[u8]) -> &[u8; STATE]
    requires { length state.now ≡ 3366 }
    ensures { result.now ≡ state.now }
{
    state.try_into().unwrap()
}

// Whether a header is due: parents are present, and the timer has run out or the payload is large enough.
pub fn is_due(pace: Pace, state: &[u8; STATE]) -> bool
    ensures { result ≡ due_header pace.header_size pace.timer state.now }
{
    if parent_count(state) == 0 {
        return false;
    }
    if pace.timer == 1 {
        return true;
    }
    pace.header_size <= 32 * waiting_count(state) as u64
}

// Puts a count into the byte at a place.
pub fn put_count(s: &mut [u8], at: usize, n: usize)
    requires at_in_bounds { at < length s.old }
    requires n_bound { n < 256 }
    ensures { s.new ≡ splice s.old at (n ∷ []) }
{
    s[at] = n as u8;
}

// Zeros in the n bytes from at.
pub fn clear(s: &mut [u8], at: usize, n: usize)
    requires { at + n ≤ length s.old }
    ensures { s.new ≡ splice s.old at (zeros n) }
{
    wire::parts::clear_bytes(s, at, n);
}

// The round after p, with n parents: zeros in all their places.
pub fn next_round(state: &mut [u8], p: u64, n: usize)
    requires state_len { length state.old ≡ 3366 }
    requires p_bound { p ≤ 4294967294 }
    requires n_bound { n ≤ 32 }
    ensures { state.new ≡ next_round state.old p n }
{
    wire::numbers::put_u32(state, 32, (p + 1) as u32);
    put_count(state, 36, n);
    clear(state, 38, 1024);
}

// The round after p, with its parents in place of the old ones.
pub fn advance(state: &mut [u8], p: u64, parents: &[u8])
    requires state_len { length state.old ≡ 3366 }
    requires p_bound { p ≤ 4294967294 }
    requires parents_len { length parents.now % 32 ≡ 0 }
    requires parents_len_bound { length parents.now / 32 ≤ 32 }
    ensures { state.new ≡ advanced state.old p (digests_of parents.now) }
{
    next_round(state, p, parents.len() / 32);
    wire::parts::put_bytes(state, 38, parents);
}

// A waiting digest more, at the end.
pub fn add(state: &mut [u8], digest: &[u8; 32], worker: u32)
    requires state_len { length state.old ≡ 3366 }
    requires state_bound { waiting_count state.old < 64 }
    ensures { state.new ≡ added state.old digest.now worker }
{
    let n = waiting_count(state) as usize;
    let place = 1062 + n * 36;
    wire::parts::put_bytes(state, place, digest);
    wire::numbers::put_u32(state, place + 32, worker);
    put_count(state, 37, n + 1);
}

// Parents and waiting digests emptied.
pub fn empty(state: &mut [u8])
    requires { length state.old ≡ 3366 }
    ensures { state.new ≡ emptied state.old }
{
    clear(state, 36, 3330);
}
