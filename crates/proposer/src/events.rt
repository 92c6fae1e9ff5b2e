// The proposer's events and their answers.
ghost use Rattle.std.specs.Prelude.{◌≡◌, true, length};
ghost use Rattle.proposer.specs.State.{valid_state};
ghost use Rattle.proposer.specs.Events.{Left, valid_call, settled, parents_after, digest_after, event_after};

use crate::header::HEADER;
use crate::pace::Pace;
use crate::state::STATE;
use refusal::Refusal;

// Whether the inputs that every event has are in the domain.
#[tactic(auto, unfolding(crate::specs::Events::valid_call))]
pub fn is_call(header_size: u64, timer: u8, state: &[u8], header: &[u8]) -> bool
    ensures { result ≡ valid_call header_size timer state.now header.now }
{
    header_size <= 4294967295
        && timer <= 1
        && header.len() == HEADER
        && crate::state::is_state(state)
}

// Makes a header where one is due, and empties the state's lists.
pub fn settle(pace: Pace, state: &mut [u8], header: &mut [u8]) -> Result<u32, Refusal>
    requires state_value { valid_state state.old ≡ true }
    requires header_len { length header.old ≡ 3402 }
    ensures { Left (settled pace.header_size pace.timer state.old header.old) result state.new header.new }
{
    let bytes = crate::state::whole(state);
    if !crate::state::is_due(pace, bytes) {
        return Ok(0);
    }
    crate::header::fill_header(bytes, header);
    crate::state::empty(state);
    Ok(1)
}

// Parents of round p: dropped where p is below the current round.
fn on_parents(
    p: u64,
    parents: &[u8],
    pace: Pace,
    state: &mut [u8; STATE],
    header: &mut [u8; HEADER],
) -> Result<u32, Refusal>
    requires { valid_state state.old ≡ true }
    ensures { Left (parents_after p parents.now pace.header_size pace.timer state.old header.old) result state.new header.new }
{
    if 4294967294 < p {
        return Err(Refusal::BadShape);
    }
    if parents.len() % 32 != 0 {
        return Err(Refusal::BadShape);
    }
    if 32 < parents.len() / 32 {
        return Err(Refusal::BadShape);
    }
    if p < crate::state::round(state) as u64 {
        return settle(pace, state, header);
    }
    crate::state::advance(state, p, parents);
    settle(pace, state, header)
}

// A digest of a worker's batch.
fn on_digest(
    digest: &[u8],
    worker: u64,
    pace: Pace,
    state: &mut [u8; STATE],
    header: &mut [u8; HEADER],
) -> Result<u32, Refusal>
    requires { valid_state state.old ≡ true }
    ensures { Left (digest_after digest.now worker pace.header_size pace.timer state.old header.old) result state.new header.new }
{
    let Some(digest) = digest.as_array::<32>() else {
        return Err(Refusal::BadShape);
    };
    if 4294967295 < worker {
        return Err(Refusal::BadShape);
    }
    if 64 <= crate::state::waiting_count(state) {
        return Err(Refusal::NoRoom);
    }
    crate::state::add(state, digest, worker as u32);
    settle(pace, state, header)
}

// One event: 1 parents of round p, 2 a digest of a worker, 3 the timer. Inputs of other events are not looked at.
pub fn proposer_event(
    tag: u8,
    p: u64,
    parents: &[u8],
    digest: &[u8],
    worker: u64,
    header_size: u64,
    timer: u8,
    state: &mut [u8],
    header: &mut [u8],
) -> Result<u32, Refusal>
    ensures { Left (event_after tag p parents.now digest.now worker header_size timer state.old header.old) result state.new header.new }
{
    let pace = Pace::new(header_size, timer)?;
    let Some(header) = header.as_mut_array::<HEADER>() else {
        return Err(Refusal::BadShape);
    };
    let Some(state) = state.as_mut_array::<STATE>() else {
        return Err(Refusal::BadShape);
    };
    if !crate::state::is_state(state) {
        return Err(Refusal::BadShape);
    }
    // A number, since the C interface gives the tag as one.
    match tag {
        1 => on_parents(p, parents, pace, state, header),
        2 => on_digest(digest, worker, pace, state, header),
        3 => settle(pace, state, header),
        _ => Err(Refusal::BadShape),
    }
}
