// What a host has written: a string at a place of its buffer, or a refusal and nothing changed.
ghost use Rattle.std.specs.Prelude.{◌≡◌, ◌+◌, leb, length};
ghost use Rattle.messages.specs.Answers.{HeaderWritten, VoteWritten};

use crate::header::Header;
use refusal::Refusal;

// Whether n bytes have room from at.
fn has_room(out: &[u8], at: u64, n: usize) -> bool
    ensures { result ≡ leb (at + n) (length out.now) }
{
    if (out.len() as u64) < at {
        return false;
    }
    n <= out.len() - at as usize
}

// The string of which a header's id is the hash.
pub fn header_string(header: &[u8], out: &mut [u8], at: u64) -> Result<u32, Refusal>
    ensures { HeaderWritten header.now out.old at result out.new }
{
    let header = Header::new(header)?.bytes;
    let n = crate::strings::header_length(header);
    if !has_room(out, at, n) {
        return Err(Refusal::BadShape);
    }
    let from = at as usize;
    let end = from + n;
    crate::strings::write_header(header, &mut out[from..end]);
    Ok(n as u32)
}

// The string that a vote signs.
pub fn vote_string(
    id: &[u8],
    round: u64,
    origin: &[u8],
    out: &mut [u8],
    at: u64,
) -> Result<u32, Refusal>
    ensures { VoteWritten id.now round origin.now out.old at result out.new }
{
    let Some(id) = id.as_array::<32>() else {
        return Err(Refusal::BadShape);
    };
    let Some(origin) = origin.as_array::<32>() else {
        return Err(Refusal::BadShape);
    };
    if !crate::header::lawful_round(round) {
        return Err(Refusal::BadShape);
    }
    if !has_room(out, at, 72) {
        return Err(Refusal::BadShape);
    }
    let from = at as usize;
    let end = from + 72;
    crate::strings::write_vote(id, round, origin, &mut out[from..end]);
    Ok(72)
}

// The string of which a certificate's digest is the hash: what its votes sign.
pub fn certificate_string(
    id: &[u8],
    round: u64,
    origin: &[u8],
    out: &mut [u8],
    at: u64,
) -> Result<u32, Refusal>
    ensures { VoteWritten id.now round origin.now out.old at result out.new }
{
    vote_string(id, round, origin, out, at)
}
