// What a host asks of a header's parents and payload, and of the known table. Every input is answered or refused.
ghost use Rattle.std.specs.Prelude.{◌≡◌, MatchResult};
ghost use Rattle.synchronizer.specs.Answers.{Looked, Unlooked, ParentsAnswer, PayloadAnswer, deliver_answer, LearnAnswer};

use crate::known::Known;
use messages::header::Header;
use refusal::Refusal;

// What parents are looked up with: genesis is the members', the known table is in shape, and so is the header.
fn lookup<'a, 'b>(
    members: &[u8],
    genesis: &[u8],
    known: &'a [u8],
    header: &'b [u8],
) -> Result<(Known<'a>, Header<'b>), Refusal>
    ensures { MatchResult result (λ l. Looked members.now genesis.now known.now header.now l.0.table.now l.1.bytes.now) (λ e. Unlooked members.now genesis.now known.now header.now e) }
{
    if !config::committee::valid_members(members) {
        return Err(Refusal::BadCommittee);
    }
    if !genesis::valid_genesis(members, genesis) {
        return Err(Refusal::BadShape);
    }
    let known = Known::new(known)?;
    let header = Header::new(header)?;
    Ok((known, header))
}

// The missing parents of a header, in parent order, at the front of out; how many there are.
pub fn get_parents<'a>(
    members: &[u8],
    genesis: &'a [u8],
    known: &'a [u8],
    header: &[u8],
    out: &mut [u8],
) -> Result<u32, Refusal>
    ensures { ParentsAnswer members.now genesis.now known.now header.now out.old result out.new }
{
    let (known, header) = lookup(members, genesis, known, header)?;
    if out.len() != 1024 {
        return Err(Refusal::BadShape);
    }
    Ok(crate::parents::missing_parents(genesis, &known, &header, out) as u32)
}

// Whether all parents of a certificate's header are there: 1 or 0.
pub fn deliver<'a>(
    members: &[u8],
    genesis: &'a [u8],
    known: &'a [u8],
    header: &[u8],
) -> Result<u32, Refusal>
    ensures { result ≡ deliver_answer members.now genesis.now known.now header.now }
{
    let (known, header) = lookup(members, genesis, known, header)?;
    Ok(u32::from(crate::parents::deliver_certificate(genesis, &known, &header)))
}

// The missing pairs of a header's payload, in payload order, at the front of out; how many there are.
pub fn missing_payload(
    own: &[u8],
    pairs: &[u8],
    header: &[u8],
    out: &mut [u8],
) -> Result<u32, Refusal>
    ensures { PayloadAnswer own.now pairs.now header.now out.old result out.new }
{
    let Some(own) = own.as_array::<32>() else {
        return Err(Refusal::BadShape);
    };
    if pairs.len() % crate::payload::PAIR != 0 {
        return Err(Refusal::BadShape);
    }
    let header = Header::new(header)?;
    if out.len() != 2304 {
        return Err(Refusal::BadShape);
    }
    Ok(crate::payload::missing_payload(own, pairs, &header, out) as u32)
}

// A record more in the known table: 1, or 0 where its digest is known.
pub fn learn(known: &mut [u8], new: &[u8]) -> Result<u32, Refusal>
    ensures { LearnAnswer known.old new.now result known.new }
{
    let table = Known::new(known)?;
    if new.len() != genesis::RECORD {
        return Err(Refusal::BadShape);
    }
    if wire::numbers::read_u32(new, 0) == 0 {
        return Err(Refusal::BadShape);
    }
    let is_known = crate::known::known_as(&table, new)?;
    if is_known {
        return Ok(0);
    }
    table::write::append(known, genesis::RECORD, new);
    Ok(1)
}
