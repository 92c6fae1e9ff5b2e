// What a host asks of a member list. Every input is answered or refused, and nothing is written.
ghost use Rattle.std.specs.Prelude.{◌≡◌};
ghost use Rattle.config.specs.Members.{members_of};
ghost use Rattle.config.specs.Answers.{committee_answer, setup_answer, quorum_answer, validity_answer, stake_answer, worker_of, worker_answer, leader_answer};

use crate::committee::{Committee, Setup};
use crate::members::MEMBER;
use refusal::Refusal;

// How many members a lawful list has.
pub fn committee(members: &[u8]) -> Result<u32, Refusal>
    ensures { result ≡ committee_answer members.now }
{
    Ok(Committee::new(members)?.len() as u32)
}

// How many members a lawful setup has.
pub fn setup(setup: &[u8]) -> Result<u32, Refusal>
    ensures { result ≡ setup_answer setup.now }
{
    Ok(Setup::new(setup)?.len() as u32)
}

pub fn quorum(members: &[u8]) -> Result<u32, Refusal>
    ensures { result ≡ quorum_answer members.now }
{
    Ok(Committee::new(members)?.quorum_threshold())
}

pub fn validity(members: &[u8]) -> Result<u32, Refusal>
    ensures { result ≡ validity_answer members.now }
{
    Ok(Committee::new(members)?.validity_threshold())
}

pub fn stake(members: &[u8], key: &[u8]) -> Result<u32, Refusal>
    ensures { result ≡ stake_answer members.now key.now }
{
    let committee = Committee::new(members)?;
    let key = refusal::key(key)?;
    Ok(crate::committee::stake(committee.members, key))
}

// Whether a member of the list has a worker of this id: 1 or 0.
fn known_worker(committee: &Committee, key: &[u8; 32], id: u32) -> u32
    ensures { result ≡ worker_of (members_of committee.now.members.now) key.now id }
{
    let Some(member) = crate::committee::standing_of(committee.members, key) else {
        return 0;
    };
    let row = wire::items::item(committee.members, MEMBER, 0, member.place);
    u32::from(crate::members::has_worker(row, id))
}

// Whether a key is a member that has a worker of this id: 1 or 0.
pub fn worker(members: &[u8], key: &[u8], id: u64) -> Result<u32, Refusal>
    ensures { result ≡ worker_answer members.now key.now id }
{
    let committee = Committee::new(members)?;
    let key = refusal::key(key)?;
    if 4294967295 < id {
        return Err(Refusal::BadShape);
    }
    Ok(known_worker(&committee, key, id as u32))
}

// The place of the member that leads a round.
pub fn leader(members: &[u8], round: u64) -> Result<u32, Refusal>
    ensures { result ≡ leader_answer members.now round }
{
    let committee = Committee::new(members)?;
    if round < 1 {
        return Err(Refusal::BadShape);
    }
    if 4294967295 < round {
        return Err(Refusal::BadShape);
    }
    Ok(crate::committee::leader_place(committee.len(), round) as u32)
}
