// Questions on a member list. All slices are read, none is written.
ghost use Rattle.std.specs.Prelude.{◌≡◌};
ghost use Rattle.refusal.specs.Answers.{code_of};
ghost use Rattle.config.specs.Answers.{committee_answer, setup_answer, quorum_answer, validity_answer, stake_answer, worker_answer, leader_answer};

// How many members a lawful member list has.
#[unsafe(no_mangle)]
pub extern "C" fn tundrimela_committee(members: &[u8]) -> u64
    ensures { result ≡ code_of (committee_answer members.now) }
{
    node::committee::tundrimela_committee(members)
}

// How many members a lawful setup has.
#[unsafe(no_mangle)]
pub extern "C" fn tundrimela_setup(setup: &[u8]) -> u64
    ensures { result ≡ code_of (setup_answer setup.now) }
{
    node::committee::tundrimela_setup(setup)
}

// The stake that makes a quorum.
#[unsafe(no_mangle)]
pub extern "C" fn tundrimela_quorum(members: &[u8]) -> u64
    ensures { result ≡ code_of (quorum_answer members.now) }
{
    node::committee::tundrimela_quorum(members)
}

// The stake that makes validity.
#[unsafe(no_mangle)]
pub extern "C" fn tundrimela_validity(members: &[u8]) -> u64
    ensures { result ≡ code_of (validity_answer members.now) }
{
    node::committee::tundrimela_validity(members)
}

// The stake of a key.
#[unsafe(no_mangle)]
pub extern "C" fn tundrimela_stake(members: &[u8], key: &[u8]) -> u64
    ensures { result ≡ code_of (stake_answer members.now key.now) }
{
    node::committee::tundrimela_stake(members, key)
}

// Whether a key is a member that has a worker of this id: 1 or 0.
#[unsafe(no_mangle)]
pub extern "C" fn tundrimela_worker(members: &[u8], key: &[u8], id: u64) -> u64
    ensures { result ≡ code_of (worker_answer members.now key.now id) }
{
    node::committee::tundrimela_worker(members, key, id)
}

// The place of the member that leads a round.
#[unsafe(no_mangle)]
pub extern "C" fn tundrimela_leader(members: &[u8], round: u64) -> u64
    ensures { result ≡ code_of (leader_answer members.now round) }
{
    node::committee::tundrimela_leader(members, round)
}
