// The strings for hashing, written to a lent buffer at a given place.
ghost use Rattle.std.specs.Prelude.{◌≡◌};
ghost use Rattle.node.specs.Promises.{HeaderString, VoteString};

// The string of which a header's id is the hash.
pub fn tundrimela_header_string(header: &[u8], out: &mut [u8], at: u64) -> u64
    ensures { HeaderString header.now out.old at result out.new }
{
    refusal::code(messages::answers::header_string(header, out, at))
}

// The string that a vote signs.
pub fn tundrimela_vote_string(id: &[u8], round: u64, origin: &[u8], out: &mut [u8], at: u64) -> u64
    ensures { VoteString id.now round origin.now out.old at result out.new }
{
    refusal::code(messages::answers::vote_string(id, round, origin, out, at))
}

// The string of which a certificate's digest is the hash.
pub fn tundrimela_certificate_string(
    id: &[u8],
    round: u64,
    origin: &[u8],
    out: &mut [u8],
    at: u64,
) -> u64
    ensures { VoteString id.now round origin.now out.old at result out.new }
{
    refusal::code(messages::answers::certificate_string(id, round, origin, out, at))
}
