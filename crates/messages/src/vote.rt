// A vote: id 32, origin 32, author 32, round 8. The id and the origin are the header's.
ghost use Rattle.std.specs.Prelude.{◌≡◌, ◌↔◌, true, IsOk, IfOk, IfErr};
ghost use Rattle.refusal.specs.declared.Refusal.TheVariants.{BadShape};
ghost use Rattle.messages.specs.Vote.{vote_id, vote_origin, vote_author, vote_round, vote_shape};

use refusal::Refusal;

pub const VOTE: usize = 104;

pub fn id(vote: &[u8; VOTE]) -> &[u8; 32]
    ensures { result.now ≡ vote_id vote.now }
{
    vote[0..32].try_into().unwrap()
}

pub fn origin(vote: &[u8; VOTE]) -> &[u8; 32]
    ensures { result.now ≡ vote_origin vote.now }
{
    vote[32..64].try_into().unwrap()
}

pub fn author(vote: &[u8; VOTE]) -> &[u8; 32]
    ensures { result.now ≡ vote_author vote.now }
{
    vote[64..96].try_into().unwrap()
}

pub fn round(vote: &[u8; VOTE]) -> u64
    ensures { result ≡ vote_round vote.now }
{
    wire::numbers::read_u64(vote, 96)
}

// Whether the bytes are a vote inside the domain.
pub fn shape(vote: &[u8]) -> bool
    ensures { result ≡ vote_shape vote.now }
{
    let Some(vote) = vote.as_array::<VOTE>() else {
        return false;
    };
    crate::header::lawful_round(round(vote))
}

// A vote inside the domain.
#[derive(Clone, Copy)]
pub struct Vote<'a> {
    pub bytes: &'a [u8; VOTE],
    pub ghost shape: { vote_shape bytes.now ≡ true },
}

impl<'a> Vote<'a> {
    // Refused where the bytes are outside the domain.
    pub fn new(bytes: &'a [u8]) -> Result<Vote<'a>, Refusal>
        ensures ok { IsOk result ↔ (vote_shape bytes.now ≡ true) }
        ensures is { IfOk result (λ v. v.bytes.now ≡ bytes.now) }
        ensures err { IfErr result (λ e. e ≡ BadShape) }
    {
        if !shape(bytes) {
            return Err(Refusal::BadShape);
        }
        Ok(Vote {
            bytes: bytes.try_into().unwrap(),
        })
    }
}
