// A header's checks.
ghost use Rattle.std.specs.Prelude.{◌≡◌, ◌≤◌, length};
ghost use Rattle.wire.specs.Items.{all_of};
ghost use Rattle.config.specs.Members.{members_of, worker_count};
ghost use Rattle.messages.specs.Header.{payload_of};
ghost use Rattle.checks.specs.Header.{works_for, workers_known, header_checks, header_check};

use config::committee::Committee;
use config::members::MEMBER;
use messages::header::{Header, PAYLOAD};
use refusal::Refusal;

// Whether a member has a worker of a payload item's id.
fn works_for(member: &[u8], item: &[u8; 36]) -> bool
    requires in_bounds { 69 ≤ length member.now }
    requires member_bound { worker_count member.now ≤ 8 }
    ensures { result ≡ works_for member.now item.now }
{
    config::members::has_worker(member, messages::header::worker(item))
}

// Whether a member has a worker of each payload item's id.
fn has_workers(member: &[u8], header: &Header) -> bool
    requires in_bounds { 69 ≤ length member.now }
    requires member_bound { worker_count member.now ≤ 8 }
    ensures { result ≡ all_of (works_for member.now) (payload_of header.now.bytes.now) }
{
    let header = header.bytes;
    let n = messages::header::payload_count(header);
    wire::items::items(header, 36, PAYLOAD, n).all(|item| works_for(
        member,
        item.try_into().unwrap(),
    ))
}

// Whether the author has a worker of each payload item's id.
fn workers_known(committee: &Committee, header: &Header) -> bool
    ensures { result ≡ workers_known (members_of committee.now.members.now) header.now.bytes.now }
{
    let author = messages::header::author(header.bytes);
    let Some(member) = config::committee::standing_of(committee.members, author) else {
        return false;
    };
    let row = wire::items::item(committee.members, MEMBER, 0, member.place);
    has_workers(row, header)
}

// The checks of a header of the right shape.
pub fn header_checks(
    committee: &Committee,
    header: &Header,
    id_ok: bool,
    sig_ok: bool,
) -> Result<u32, Refusal>
    ensures { result ≡ header_checks (members_of committee.now.members.now) header.now.bytes.now id_ok sig_ok }
{
    if !id_ok {
        return Err(Refusal::InvalidHeaderId);
    }
    let author = messages::header::author(header.bytes);
    if config::committee::stake(committee.members, author) == 0 {
        return Err(Refusal::UnknownAuthority);
    }
    if !workers_known(committee, header) {
        return Err(Refusal::MalformedHeader);
    }
    if !sig_ok {
        return Err(Refusal::InvalidSignature);
    }
    Ok(0)
}

// A header, with the verdicts on its id and its signature: 1 is yes, 0 is no.
pub fn header_check(members: &[u8], header: &[u8], id_ok: u8, sig_ok: u8) -> Result<u32, Refusal>
    ensures { result ≡ header_check members.now header.now id_ok sig_ok }
{
    let committee = Committee::new(members)?;
    let header = Header::new(header)?;
    let id_ok = crate::verdict(id_ok)?;
    let sig_ok = crate::verdict(sig_ok)?;
    header_checks(&committee, &header, id_ok, sig_ok)
}
