// The proposer: its start and its events. The host keeps the timer and hands in its verdict, 1 where it has run out.
ghost use Rattle.std.specs.Prelude.{◌≡◌};
ghost use Rattle.proposer.specs.Events.{event_after};
ghost use Rattle.proposer.specs.Start.{start_after};
ghost use Rattle.node.specs.Promises.{Proposed};

// Round 1 with genesis as parents: 1 where a header was made.
pub fn tundrimela_proposer_start(
    members: &[u8],
    own: &[u8],
    genesis: &[u8],
    header_size: u64,
    timer: u8,
    state: &mut [u8],
    header: &mut [u8],
) -> u64
    ensures { Proposed (start_after members.now own.now genesis.now header_size timer state.old header.old) result state.new header.new }
{
    refusal::code(proposer::start::proposer_start(
        members,
        own,
        genesis,
        header_size,
        timer,
        state,
        header,
    ))
}

// One event: 1 parents of round p, 2 a digest of a worker, 3 the timer. 1 where a header was made.
pub fn tundrimela_proposer_event(
    tag: u8,
    p: u64,
    parents: &[u8],
    digest: &[u8],
    worker: u64,
    header_size: u64,
    timer: u8,
    state: &mut [u8],
    header: &mut [u8],
) -> u64
    ensures { Proposed (event_after tag p parents.now digest.now worker header_size timer state.old header.old) result state.new header.new }
{
    refusal::code(proposer::events::proposer_event(
        tag,
        p,
        parents,
        digest,
        worker,
        header_size,
        timer,
        state,
        header,
    ))
}
