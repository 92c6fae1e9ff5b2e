// A certificate's checks.
ghost use Rattle.std.specs.Prelude.{◌≡◌, []};
ghost use Rattle.config.specs.Members.{members_of};
ghost use Rattle.messages.specs.Certificate.{voters_of};
ghost use Rattle.checks.specs.Certificate.{weighed, votes_checks, certificate_checks, certificate_check};

use config::committee::Committee;
use messages::certificate::{Certificate, VOTERS};
use messages::header::Header;
use refusal::Refusal;

// The stake of all voters, or what is wrong with the first wrong one.
fn weigh(members: &[u8], certificate: &Certificate) -> Result<u64, Refusal>
    ensures { result ≡ weighed (members_of members.now) [] 0 (voters_of certificate.now.bytes.now) }
{
    let certificate = certificate.bytes;
    let n = messages::certificate::vote_count(certificate);
    let mut weight: u64 = 0;
    for i in 0..n {
        let voter = messages::certificate::voter(certificate, i);
        let None = wire::items::find(certificate, 32, VOTERS, i, 0, voter) else {
            return Err(Refusal::AuthorityReuse);
        };
        let rights = config::committee::stake(members, voter);
        if rights == 0 {
            return Err(Refusal::UnknownAuthority);
        }
        weight += rights as u64;
    }
    Ok(weight)
}

// The checks of the votes.
fn votes_checks(
    committee: &Committee,
    certificate: &Certificate,
    batch_ok: bool,
) -> Result<u32, Refusal>
    ensures { result ≡ votes_checks (members_of committee.now.members.now) certificate.now.bytes.now batch_ok }
{
    let weight = weigh(committee.members, certificate)?;
    if weight < committee.quorum_threshold() as u64 {
        return Err(Refusal::CertificateRequiresQuorum);
    }
    if !batch_ok {
        return Err(Refusal::InvalidSignature);
    }
    Ok(0)
}

// The checks of a certificate of the right shape.
pub fn certificate_checks(
    committee: &Committee,
    certificate: &Certificate,
    id_ok: bool,
    sig_ok: bool,
    batch_ok: bool,
) -> Result<u32, Refusal>
    ensures { result ≡ certificate_checks (members_of committee.now.members.now) certificate.now.bytes.now id_ok sig_ok batch_ok }
{
    let header = Header {
        bytes: messages::certificate::header(certificate.bytes),
    };
    let found = crate::header::header_checks(committee, &header, id_ok, sig_ok);
    let Ok(_) = found else {
        return found;
    };
    votes_checks(committee, certificate, batch_ok)
}

// A certificate, with the verdicts on its header's id and signature and on its votes' signatures: 1 is yes, 0 is no.
pub fn certificate_check(
    members: &[u8],
    certificate: &[u8],
    id_ok: u8,
    sig_ok: u8,
    batch_ok: u8,
) -> Result<u32, Refusal>
    ensures { result ≡ certificate_check members.now certificate.now id_ok sig_ok batch_ok }
{
    let committee = Committee::new(members)?;
    let certificate = Certificate::new(certificate)?;
    let id_ok = crate::verdict(id_ok)?;
    let sig_ok = crate::verdict(sig_ok)?;
    let batch_ok = crate::verdict(batch_ok)?;
    certificate_checks(&committee, &certificate, id_ok, sig_ok, batch_ok)
}
