// Votes counted to a certificate, certificates counted to parents.
ghost use Rattle.std.specs.Prelude.{◌≡◌};
ghost use Rattle.node.specs.Promises.{CountVote, CountCertificate};

// A vote more: 1 where it reaches quorum.
pub fn tundrimela_count_vote(members: &[u8], voters: &mut [u8], author: &[u8]) -> u64
    ensures { CountVote members.now voters.old author.now result voters.new }
{
    refusal::code(aggregators::votes::count_vote(members, voters, author))
}

// A certificate more of a round: how many digests are given, at the front of out.
pub fn tundrimela_count_certificate(
    members: &[u8],
    counts: &mut [u8],
    round: u64,
    origin: &[u8],
    digest: &[u8],
    out: &mut [u8],
) -> u64
    ensures { CountCertificate members.now counts.old round origin.now digest.now out.old result counts.new out.new }
{
    refusal::code(aggregators::certificates::count_certificate(
        members, counts, round, origin, digest, out,
    ))
}
