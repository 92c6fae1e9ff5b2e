// The member list: members one behind the other, and the setup: the depth (8 bytes), then the members.
ghost use Rattle.std.specs.Prelude.{◌≡◌, true, false, ◌+◌, ◌-◌, ◌*◌, ◌/◌, ◌%◌, ◌≤◌, ◌<◌, length, drop, IfOk, IfErr, OnErr};
ghost use Rattle.wire.specs.Bytes.{part, word};
ghost use Rattle.wire.specs.Items.{all_of};
ghost use Rattle.config.specs.Members.{members_of, lawful};
ghost use Rattle.config.specs.Committee.{total, quorum, validity, leader_place, standing_of, stake_of, valid_members, valid_setup};
ghost use Rattle.refusal.specs.declared.Refusal.TheVariants.{BadCommittee};

use crate::members::MEMBER;
use refusal::Refusal;

// What a member is to the committee.
#[derive(Clone, Copy, Debug, PartialEq, Eq)]
pub struct Standing {
    pub place: usize,
    pub stake: u32,
}

// The sum of all stakes.
pub fn total_stake(members: &[u8]) -> u64
    requires { length members.now ≤ 2208 }
    ensures { result ≡ total (members_of members.now) }
{
    members
        .chunks_exact(MEMBER) // all of them
        .map(|m| crate::members::stake_in(m) as u64)
        .sum()
}

// Whether each member is lawful.
fn all_lawful(members: &[u8]) -> bool
    ensures { result ≡ all_of lawful (members_of members.now) }
{
    members
        .chunks_exact(MEMBER)
        .all(|m| crate::members::is_lawful(m))
}

// Whether a member list lies inside the domain; where it does not, that is refusal 10.
pub fn valid_members(members: &[u8]) -> bool
    ensures { result ≡ valid_members members.now }
{
    if members.len() % MEMBER != 0 {
        return false;
    }
    let n = members.len() / MEMBER;
    if n < 1 {
        return false;
    }
    if 32 < n {
        return false;
    }
    if !wire::items::ascending(members, MEMBER, 0, n) {
        return false;
    }
    if !all_lawful(members) {
        return false;
    }
    total_stake(members) <= 16777216
}

// The depth of a setup.
pub fn depth(setup: &[u8]) -> u64
    requires { 8 ≤ length setup.now }
    ensures { result ≡ word (part setup.now 0 8) }
{
    wire::numbers::read_u64(setup, 0)
}

// The members of a setup.
pub fn members_of<'a>(setup: &'a [u8]) -> &'a [u8]
    requires { 8 ≤ length setup.now }
    ensures { result.now ≡ drop 8 setup.now }
{
    &setup[8..]
}

// Whether a setup lies inside the domain.
pub fn valid_setup(setup: &[u8]) -> bool
    ensures { result ≡ valid_setup setup.now }
{
    if setup.len() < 8 {
        return false;
    }
    if 4294967295 < depth(setup) {
        return false;
    }
    valid_members(members_of(setup))
}

// A member list inside the domain.
#[derive(Clone, Copy)]
pub struct Committee<'a> {
    pub members: &'a [u8],
    pub ghost valid: { valid_members members.now ≡ true },
}

impl<'a> Committee<'a> {
    // The committee of a member list; refused where the list is outside the domain.
    pub fn new(members: &'a [u8]) -> Result<Committee<'a>, Refusal>
        ensures members { IfOk result (λ c. c.members.now ≡ members.now) }
        ensures refused { IfErr result (λ e. e ≡ BadCommittee) }
        ensures outside { OnErr result (valid_members members.now ≡ false) }
    {
        if !valid_members(members) {
            return Err(Refusal::BadCommittee);
        }
        Ok(Committee { members })
    }

    // How many members there are.
    pub fn len(&self) -> usize
        ensures { result ≡ length self.now.members.now / 69 }
    {
        self.members.len() / MEMBER
    }

    // The stake that makes a quorum (2f+1).
    pub fn quorum_threshold(&self) -> u32
        ensures { result ≡ quorum (total (members_of self.now.members.now)) }
    {
        (2 * total_stake(self.members) / 3 + 1) as u32
    }

    // The stake that makes validity (f+1).
    pub fn validity_threshold(&self) -> u32
        ensures { result ≡ validity (total (members_of self.now.members.now)) }
    {
        ((total_stake(self.members) + 2) / 3) as u32
    }
}

// A setup inside the domain.
#[derive(Clone, Copy)]
pub struct Setup<'a> {
    pub bytes: &'a [u8],
    pub ghost valid: { valid_setup bytes.now ≡ true },
}

impl<'a> Setup<'a> {
    // The setup of these bytes; refused where they are outside the domain.
    pub fn new(bytes: &'a [u8]) -> Result<Setup<'a>, Refusal>
        ensures bytes { IfOk result (λ s. s.bytes.now ≡ bytes.now) }
        ensures refused { IfErr result (λ e. e ≡ BadCommittee) }
        ensures outside { OnErr result (valid_setup bytes.now ≡ false) }
    {
        if !valid_setup(bytes) {
            return Err(Refusal::BadCommittee);
        }
        Ok(Setup { bytes })
    }

    // Its members.
    pub fn committee(&self) -> Committee<'a>
        ensures { result.members.now ≡ drop 8 self.now.bytes.now }
    {
        Committee {
            members: members_of(self.bytes),
        }
    }

    // How many members there are.
    pub fn len(&self) -> usize
        ensures { result ≡ (length self.now.bytes.now - 8) / 69 }
    {
        (self.bytes.len() - 8) / MEMBER
    }
}

// What a key is to the committee; a stranger is nothing.
pub fn standing_of(members: &[u8], key: &[u8; 32]) -> Option<Standing>
    ensures { result ≡ standing_of (members_of members.now) key.now }
{
    let n = members.len() / MEMBER;
    let place = wire::items::find(members, MEMBER, 0, n, 0, key)?;
    Some(Standing {
        place,
        stake: crate::members::stake_in(wire::items::item(members, MEMBER, 0, place)),
    })
}

// The stake of a key: a stranger has none.
pub fn stake(members: &[u8], key: &[u8; 32]) -> u32
    ensures { result ≡ stake_of (members_of members.now) key.now }
{
    match standing_of(members, key) {
        Some(member) => member.stake,
        None => 0,
    }
}

// The place of the member whose turn it is to lead a round.
pub fn leader_place(n: usize, round: u64) -> usize
    requires { 1 ≤ n }
    ensures { result ≡ leader_place n round }
{
    (round % n as u64) as usize
}
