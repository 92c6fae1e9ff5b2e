// A header: id 32, author 32, round 8, parent count 1, payload count 1, parents 32 x 32, payload 64 x (digest 32, worker 4).
ghost use Rattle.std.specs.Prelude.{◌≡◌, true, ◌+◌, ◌/◌, ◌≤◌, ◌<◌, length};
ghost use Rattle.wire.specs.Bytes.{splice, bytes};
ghost use Rattle.wire.specs.Items.{items};
ghost use Rattle.proposer.specs.Sorted.{sorted_once};
ghost use Rattle.proposer.specs.State.{zeros, own_in, round_in, valid_state};
ghost use Rattle.proposer.specs.Header.{with_list, header_made};

use crate::state::STATE;

pub const HEADER: usize = 3402;

// Zeros, then author and round.
fn put_head(state: &[u8; STATE], header: &mut [u8])
    requires { length header.old ≡ 3402 }
    ensures { header.new ≡ splice (splice (zeros 3402) 32 (own_in state.now)) 64 (bytes 8 (round_in state.now)) }
{
    crate::state::clear(header, 0, HEADER);
    wire::parts::put_bytes(header, 32, &state[0..32]);
    wire::numbers::put_u64(header, 64, crate::state::round(state) as u64);
}

// The items of src in order into header from to, and how many there are then into the byte at count_at.
fn put_list(header: &mut [u8], count_at: usize, to: usize, size: usize, src: &[u8])
    requires header_len { length header.old ≡ 3402 }
    requires src_in_bounds { to + length src.now ≤ 3402 }
    requires le_size { 32 ≤ size }
    requires count_at_in_bounds { count_at < 3402 }
    ensures { header.new ≡ with_list header.old count_at to (sorted_once (items size src.now 0 (length src.now / size))) }
{
    let many = crate::sorted::put_sorted(header, to, size, src);
    crate::state::put_count(header, count_at, many);
}

// The header of a state: its id is left zero, for the host to fill.
pub fn fill_header(state: &[u8; STATE], header: &mut [u8])
    requires state_value { valid_state state.now ≡ true }
    requires header_len { length header.old ≡ 3402 }
    ensures { header.new ≡ header_made state.now }
{
    put_head(state, header);
    put_list(header, 72, 74, 32, crate::state::parents(state));
    put_list(header, 73, 1098, 36, crate::state::waiting(state));
}
