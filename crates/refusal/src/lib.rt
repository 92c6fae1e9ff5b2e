// What a call answers: a value, or one of document 01's refusals.
#![tactic(auto)]

ghost use Rattle.std.specs.Prelude.{◌≡◌, ◌≢◌, ◌<◌, ◌^◌, length, IfOk, IfErr, OnOk, OnErr};
ghost use Rattle.refusal.specs.declared.Refusal.TheVariants.{BadShape};
ghost use Rattle.refusal.specs.Answers.{number_of, value_of, code_of};

// Document 01's refusals, each with its number.
#[derive(Clone, Copy, Debug, PartialEq, Eq)]
pub enum Refusal {
    InvalidHeaderId = 1,
    UnknownAuthority = 2,
    MalformedHeader = 3,
    InvalidSignature = 4,
    AuthorityReuse = 5,
    CertificateRequiresQuorum = 7,
    BadCommittee = 10,
    BadShape = 11,
    NoRoom = 12,
    HistoryMissing = 13,
    DigestClash = 14,
}

impl Refusal {
    pub fn number(self) -> u8
        ensures { result ≡ number_of self }
    {
        self as u8
    }
}

// The answer as one number: the refusal's number, or 256 times the value. A value of less than 2^56 fits.
#[tactic(auto, unfolding(crate::specs::Answers::code_of))]
pub fn long_code(answer: Result<usize, Refusal>) -> u64
    requires { value_of answer < 256 ^ 7 }
    ensures { result ≡ code_of answer }
{
    match answer {
        Ok(value) => 256 * value as u64,
        Err(refusal) => refusal.number() as u64,
    }
}

// The same of a value of 32 bits, which always fits.
#[tactic(auto, unfolding(crate::specs::Answers::code_of))]
pub fn code(answer: Result<u32, Refusal>) -> u64
    ensures { result ≡ code_of answer }
{
    long_code(answer.map(|value| value as usize))
}

// A key or a digest; refused where there are more or fewer than 32 bytes.
pub fn key(bytes: &[u8]) -> Result<&[u8; 32], Refusal>
    ensures key { IfOk result (λ k. k.now ≡ bytes.now) }
    ensures inside { OnOk result (length bytes.now ≡ 32) }
    ensures refused { IfErr result (λ e. e ≡ BadShape) }
    ensures outside { OnErr result (length bytes.now ≢ 32) }
{
    bytes.as_array().ok_or(Refusal::BadShape)
}
