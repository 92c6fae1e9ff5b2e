// A vote's checks.
ghost use Rattle.std.specs.Prelude.{◌≡◌};
ghost use Rattle.config.specs.Members.{members_of};
ghost use Rattle.checks.specs.Vote.{vote_checks, vote_check};

use config::committee::Committee;
use messages::vote::Vote;
use refusal::Refusal;

// The checks of a vote of the right shape.
pub fn vote_checks(committee: &Committee, vote: &Vote, sig_ok: bool) -> Result<u32, Refusal>
    ensures { result ≡ vote_checks (members_of committee.now.members.now) vote.now.bytes.now sig_ok }
{
    let author = messages::vote::author(vote.bytes);
    if config::committee::stake(committee.members, author) == 0 {
        return Err(Refusal::UnknownAuthority);
    }
    if !sig_ok {
        return Err(Refusal::InvalidSignature);
    }
    Ok(0)
}

// A vote, with the verdict on its signature: 1 is yes, 0 is no.
pub fn vote_check(members: &[u8], vote: &[u8], sig_ok: u8) -> Result<u32, Refusal>
    ensures { result ≡ vote_check members.now vote.now sig_ok }
{
    let committee = Committee::new(members)?;
    let vote = Vote::new(vote)?;
    let sig_ok = crate::verdict(sig_ok)?;
    vote_checks(&committee, &vote, sig_ok)
}
