// The checks of header, vote and certificate. A verdict of the host is 1 for yes and 0 for no. All slices are read, none is written.
ghost use Rattle.std.specs.Prelude.{◌≡◌};
ghost use Rattle.refusal.specs.Answers.{code_of};
ghost use Rattle.checks.specs.Header.{header_check};
ghost use Rattle.checks.specs.Vote.{vote_check};
ghost use Rattle.checks.specs.Certificate.{certificate_check};

// A header, with the verdicts on its id and its signature.
pub fn tundrimela_header_check(members: &[u8], header: &[u8], id_ok: u8, sig_ok: u8) -> u64
    ensures { result ≡ code_of (header_check members.now header.now id_ok sig_ok) }
{
    refusal::code(checks::header::header_check(members, header, id_ok, sig_ok))
}

// A vote, with the verdict on its signature.
pub fn tundrimela_vote_check(members: &[u8], vote: &[u8], sig_ok: u8) -> u64
    ensures { result ≡ code_of (vote_check members.now vote.now sig_ok) }
{
    refusal::code(checks::vote::vote_check(members, vote, sig_ok))
}

// A certificate, with the verdicts on its header's id and signature and on its votes' signatures.
pub fn tundrimela_certificate_check(
    members: &[u8],
    certificate: &[u8],
    id_ok: u8,
    sig_ok: u8,
    batch_ok: u8,
) -> u64
    ensures { result ≡ code_of (certificate_check members.now certificate.now id_ok sig_ok batch_ok) }
{
    refusal::code(checks::certificate::certificate_check(
        members,
        certificate,
        id_ok,
        sig_ok,
        batch_ok,
    ))
}
