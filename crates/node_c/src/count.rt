// Votes counted to a certificate, certificates counted to parents.
ghost use Rattle.std.specs.Prelude.{◌≡◌};
ghost use Rattle.node.specs.Promises.{CountVote, CountCertificate};

// A vote more: 1 where it reaches quorum.
#[unsafe(no_mangle)]
pub extern "C" fn tundrimela_count_vote(members: &[u8], voters: &mut [u8], author: &[u8]) -> u64
    ensures { CountVote members.now voters.old author.now result voters.new }
{
    node::count::tundrimela_count_vote(members, voters, author)
}

// A certificate more of a round: how many digests are given, at the front of out.
#[unsafe(no_mangle)]
pub extern "C" fn tundrimela_count_certificate(
    members: &[u8],
    counts: &mut [u8],
    round: u64,
    origin: &[u8],
    digest: &[u8],
    out: &mut [u8],
) -> u64
    ensures { CountCertificate members.now counts.old round origin.now digest.now out.old result counts.new out.new }
{
    node::count::tundrimela_count_certificate(members, counts, round, origin, digest, out)
}
