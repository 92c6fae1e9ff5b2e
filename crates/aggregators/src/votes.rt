// The voters of a header: how many in one byte, then 32 keys in the order counted. Their weight is not kept: it is counted anew.
ghost use Rattle.std.specs.Prelude.{◌≡◌, true, false, ◌≤◌, ◌<◌, length, IfOk, IfErr, OnOk, OnErr};
ghost use Rattle.aggregators.specs.Weight.{is_in};
ghost use Rattle.aggregators.specs.Votes.{voter_count, voters_of, with_voter, are_voters, votes_weight, vote_reaches, CountsVote};
ghost use Rattle.refusal.specs.declared.Refusal.TheVariants.{BadShape};

use config::committee::Committee;
use refusal::Refusal;

pub const VOTERS: usize = 1025;

pub const KEY: usize = 32;

// How many voters are counted.
pub fn voter_count(voters: &[u8]) -> usize
    requires { 1 ≤ length voters.now }
    ensures { result ≡ voter_count voters.now }
{
    voters[0] as usize
}

// Whether the bytes are voters.
pub fn voters_shape(voters: &[u8]) -> bool
    ensures { result ≡ are_voters voters.now }
{
    if voters.len() != VOTERS {
        return false;
    }
    voter_count(voters) <= 32
}

// Voters in shape.
#[derive(Clone, Copy)]
pub struct Voters<'a> {
    pub bytes: &'a [u8],
    pub ghost shape: { are_voters bytes.now ≡ true },
}

impl<'a> Voters<'a> {
    // The voters in these bytes; refused where they are not in shape.
    pub fn new(bytes: &'a [u8]) -> Result<Voters<'a>, Refusal>
        ensures bytes { IfOk result (λ v. v.bytes.now ≡ bytes.now) }
        ensures inside { OnOk result (are_voters bytes.now ≡ true) }
        ensures refused { IfErr result (λ e. e ≡ BadShape) }
        ensures outside { OnErr result (are_voters bytes.now ≡ false) }
    {
        if !voters_shape(bytes) {
            return Err(Refusal::BadShape);
        }
        Ok(Voters { bytes })
    }

    // Whether an author was counted.
    pub fn has_voted(&self, author: &[u8; 32]) -> bool
        ensures { result ≡ is_in author.now (voters_of self.now.bytes.now) }
    {
        crate::tally::has_key(self.bytes, KEY, 1, voter_count(self.bytes), author)
    }

    // The weight of the votes counted since quorum was last reached.
    pub fn votes_weight(&self, committee: &Committee) -> u32
        ensures { result ≡ votes_weight committee.now.members.now self.now.bytes.now }
    {
        let n = voter_count(self.bytes);
        let t = crate::tally::count_keys(committee, self.bytes, KEY, 1, n);
        t.weight
    }

    // Whether a vote of the author, counted behind these, reaches quorum.
    pub fn reaches(&self, committee: &Committee, author: &[u8; 32]) -> bool
        ensures { result ≡ vote_reaches committee.now.members.now self.now.bytes.now author.now }
    {
        crate::tally::is_enough(committee, self.votes_weight(committee), author)
    }
}

// A voter more.
pub fn put_voter(voters: &mut [u8], author: &[u8; 32])
    requires voters_value { are_voters voters.old ≡ true }
    requires voters_bound { voter_count voters.old < 32 }
    ensures { voters.new ≡ with_voter voters.old author.now }
{
    let n = voter_count(voters);
    wire::parts::put_bytes(voters, 1 + n * KEY, author);
    voters[0] = (n + 1) as u8;
}

// Counts a vote: 1 where it makes a certificate, else 0.
pub fn count_vote(members: &[u8], voters: &mut [u8], author: &[u8]) -> Result<u32, Refusal>
    ensures { CountsVote members.now voters.old author.now result voters.new }
{
    let committee = Committee::new(members)?;
    let counted = Voters::new(voters)?;
    let author = refusal::key(author)?;
    if counted.has_voted(author) {
        return Err(Refusal::AuthorityReuse);
    }
    if 32 <= voter_count(counted.bytes) {
        return Err(Refusal::NoRoom);
    }
    let reached = counted.reaches(&committee, author);
    put_voter(voters, author);
    Ok(u32::from(reached))
}
