// The proposer's start: round 1, with genesis as parents.
ghost use Rattle.std.specs.Prelude.{◌≡◌, ◌*◌, ◌/◌, ◌≤◌, length};
ghost use Rattle.wire.specs.Bytes.{splice};
ghost use Rattle.wire.specs.Items.{items, flat};
ghost use Rattle.proposer.specs.Events.{Left};
ghost use Rattle.proposer.specs.Start.{digests_in, started, start_after};

use crate::header::HEADER;
use crate::pace::Pace;
use crate::state::STATE;
use refusal::Refusal;

// The digests of the n records of genesis, one behind the other into state from 38.
fn put_genesis(state: &mut [u8; STATE], genesis: &[u8], n: usize)
    requires n_in_bounds { n * 68 ≤ length genesis.now }
    requires n_bound { n ≤ 32 }
    ensures { state.new ≡ splice state.old 38 (flat (digests_in (items 68 genesis.now 0 n))) }
{
    for i in 0..n {
        let one = genesis::digest(wire::items::item(genesis, genesis::RECORD, 0, i));
        wire::parts::put_bytes(state, 38 + i * 32, one);
    }
}

// The state at the start.
fn start_state(own: &[u8; 32], genesis: &[u8], state: &mut [u8; STATE])
    requires { length genesis.now / 68 ≤ 32 }
    ensures { state.new ≡ started own.now genesis.now }
{
    let n = genesis.len() / genesis::RECORD;
    crate::state::clear(state, 0, STATE);
    wire::parts::put_bytes(state, 0, own);
    crate::state::next_round(state, 0, n);
    put_genesis(state, genesis, n);
}

// Round 1 with genesis as parents; a header is made where one is due.
pub fn proposer_start(
    members: &[u8],
    own: &[u8],
    genesis: &[u8],
    header_size: u64,
    timer: u8,
    state: &mut [u8],
    header: &mut [u8],
) -> Result<u32, Refusal>
    ensures { Left (start_after members.now own.now genesis.now header_size timer state.old header.old) result state.new header.new }
{
    if !config::committee::valid_members(members) {
        return Err(Refusal::BadCommittee);
    }
    let Some(own) = own.as_array::<32>() else {
        return Err(Refusal::BadShape);
    };
    let Some(_) = config::committee::standing_of(members, own) else {
        return Err(Refusal::BadCommittee);
    };
    let pace = Pace::new(header_size, timer)?;
    let Some(state) = state.as_mut_array::<STATE>() else {
        return Err(Refusal::BadShape);
    };
    let Some(header) = header.as_mut_array::<HEADER>() else {
        return Err(Refusal::BadShape);
    };
    if !genesis::valid_genesis(members, genesis) {
        return Err(Refusal::BadShape);
    }
    start_state(own, genesis, state);
    crate::events::settle(pace, state, header)
}
