// A certificate: header 3,402, digest 32, vote count 1, voter keys 64 x 32.
ghost use Rattle.std.specs.Prelude.{◌≡◌, ◌↔◌, true, ◌+◌, ◌*◌, ◌≤◌, length, IsOk, IfOk, IfErr};
ghost use Rattle.refusal.specs.declared.Refusal.TheVariants.{BadShape};
ghost use Rattle.wire.specs.Items.{item_in};
ghost use Rattle.messages.specs.Certificate.{header_of, digest_of, vote_count, certificate_shape};

use crate::header::HEADER;
use refusal::Refusal;

pub const CERTIFICATE: usize = 5483;

pub const VOTERS: usize = 3435;

pub fn header(certificate: &[u8; CERTIFICATE]) -> &[u8; HEADER]
    ensures { result.now ≡ header_of certificate.now }
{
    certificate[0..3402].try_into().unwrap()
}

pub fn digest(certificate: &[u8; CERTIFICATE]) -> &[u8; 32]
    ensures { result.now ≡ digest_of certificate.now }
{
    certificate[3402..3434].try_into().unwrap()
}

pub fn vote_count(certificate: &[u8; CERTIFICATE]) -> usize
    ensures { result ≡ vote_count certificate.now }
{
    certificate[3434] as usize
}

// The key of voter i.
pub fn voter(certificate: &[u8], i: usize) -> &[u8; 32]
    requires { 3435 + i * 32 + 32 ≤ length certificate.now }
    ensures { result.now ≡ item_in 32 certificate.now 3435 i }
{
    wire::items::item(certificate, 32, VOTERS, i)
        .try_into()
        .unwrap()
}

// Whether the bytes are a certificate inside the domain.
pub fn shape(certificate: &[u8]) -> bool
    ensures { result ≡ certificate_shape certificate.now }
{
    let Some(certificate) = certificate.as_array::<CERTIFICATE>() else {
        return false;
    };
    if !crate::header::shape(header(certificate)) {
        return false;
    }
    vote_count(certificate) <= 64
}

// A certificate inside the domain.
#[derive(Clone, Copy)]
pub struct Certificate<'a> {
    pub bytes: &'a [u8; CERTIFICATE],
    pub ghost shape: { certificate_shape bytes.now ≡ true },
}

impl<'a> Certificate<'a> {
    // Refused where the bytes are outside the domain.
    pub fn new(bytes: &'a [u8]) -> Result<Certificate<'a>, Refusal>
        ensures ok { IsOk result ↔ (certificate_shape bytes.now ≡ true) }
        ensures is { IfOk result (λ c. c.bytes.now ≡ bytes.now) }
        ensures err { IfErr result (λ e. e ≡ BadShape) }
    {
        if !shape(bytes) {
            return Err(Refusal::BadShape);
        }
        Ok(Certificate {
            bytes: bytes.try_into().unwrap(),
        })
    }
}
