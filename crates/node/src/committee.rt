// Questions on a member list. All slices are read, none is written.
ghost use Rattle.std.specs.Prelude.{◌≡◌};
ghost use Rattle.refusal.specs.Answers.{code_of};
ghost use Rattle.config.specs.Answers.{committee_answer, setup_answer, quorum_answer, validity_answer, stake_answer, worker_answer, leader_answer};

// How many members a lawful member list has.
pub fn tundrimela_committee(members: &[u8]) -> u64
    ensures { result ≡ code_of (committee_answer members.now) }
{
    refusal::code(config::answers::committee(members))
}

// How many members a lawful setup has.
pub fn tundrimela_setup(setup: &[u8]) -> u64
    ensures { result ≡ code_of (setup_answer setup.now) }
{
    refusal::code(config::answers::setup(setup))
}

// The stake that makes a quorum.
pub fn tundrimela_quorum(members: &[u8]) -> u64
    ensures { result ≡ code_of (quorum_answer members.now) }
{
    refusal::code(config::answers::quorum(members))
}

// The stake that makes validity.
pub fn tundrimela_validity(members: &[u8]) -> u64
    ensures { result ≡ code_of (validity_answer members.now) }
{
    refusal::code(config::answers::validity(members))
}

// The stake of a key.
pub fn tundrimela_stake(members: &[u8], key: &[u8]) -> u64
    ensures { result ≡ code_of (stake_answer members.now key.now) }
{
    refusal::code(config::answers::stake(members, key))
}

// Whether a key is a member that has a worker of this id: 1 or 0.
pub fn tundrimela_worker(members: &[u8], key: &[u8], id: u64) -> u64
    ensures { result ≡ code_of (worker_answer members.now key.now id) }
{
    refusal::code(config::answers::worker(members, key, id))
}

// The place of the member that leads a round.
pub fn tundrimela_leader(members: &[u8], round: u64) -> u64
    ensures { result ≡ code_of (leader_answer members.now round) }
{
    refusal::code(config::answers::leader(members, round))
}
