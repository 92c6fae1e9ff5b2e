// A header: id 32, author 32, round 8, parent count 1, payload count 1, parents 32 x 32, payload 64 x (digest 32, worker 4).
ghost use Rattle.std.specs.Prelude.{◌≡◌, ◌↔◌, true, ◌+◌, ◌*◌, ◌≤◌, length, IsOk, IfOk, IfErr};
ghost use Rattle.wire.specs.Items.{item_in};
ghost use Rattle.messages.specs.Header.{id_of, author_of, round_of, parent_count, payload_count, digest_in, worker_in, lawful_round, header_shape};
ghost use Rattle.refusal.specs.declared.Refusal.TheVariants.{BadShape};

use refusal::Refusal;

pub const HEADER: usize = 3402;

pub const PARENTS: usize = 74;

pub const PAYLOAD: usize = 1098;

pub fn id(header: &[u8; HEADER]) -> &[u8; 32]
    ensures { result.now ≡ id_of header.now }
{
    header[0..32].try_into().unwrap()
}

pub fn author(header: &[u8; HEADER]) -> &[u8; 32]
    ensures { result.now ≡ author_of header.now }
{
    header[32..64].try_into().unwrap()
}

pub fn round(header: &[u8; HEADER]) -> u64
    ensures { result ≡ round_of header.now }
{
    wire::numbers::read_u64(header, 64)
}

pub fn parent_count(header: &[u8; HEADER]) -> usize
    ensures { result ≡ parent_count header.now }
{
    header[72] as usize
}

pub fn payload_count(header: &[u8; HEADER]) -> usize
    ensures { result ≡ payload_count header.now }
{
    header[73] as usize
}

// The digest of parent i.
pub fn parent(header: &[u8], i: usize) -> &[u8; 32]
    requires { 74 + i * 32 + 32 ≤ length header.now }
    ensures { result.now ≡ item_in 32 header.now 74 i }
{
    wire::items::item(header, 32, PARENTS, i)
        .try_into()
        .unwrap()
}

// Payload item i: a digest and a worker id.
pub fn payload(header: &[u8], i: usize) -> &[u8; 36]
    requires { 1098 + i * 36 + 36 ≤ length header.now }
    ensures { result.now ≡ item_in 36 header.now 1098 i }
{
    wire::items::item(header, 36, PAYLOAD, i)
        .try_into()
        .unwrap()
}

// The digest of a payload item.
pub fn digest(item: &[u8]) -> &[u8; 32]
    requires { 36 ≤ length item.now }
    ensures { result.now ≡ digest_in item.now }
{
    item[0..32].try_into().unwrap()
}

// The worker id of a payload item.
pub fn worker(item: &[u8]) -> u32
    requires { 36 ≤ length item.now }
    ensures { result ≡ worker_in item.now }
{
    wire::numbers::read_u32(item, 32)
}

// Whether a round is one of a message.
pub fn lawful_round(round: u64) -> bool
    ensures { result ≡ lawful_round round }
{
    if round < 1 {
        return false;
    }
    round <= 4294967295
}

// Whether the bytes are a header inside the domain.
pub fn shape(header: &[u8]) -> bool
    ensures { result ≡ header_shape header.now }
{
    let Some(header) = header.as_array::<HEADER>() else {
        return false;
    };
    if !lawful_round(round(header)) {
        return false;
    }
    let m = parent_count(header);
    if 32 < m {
        return false;
    }
    let k = payload_count(header);
    if 64 < k {
        return false;
    }
    if !wire::items::ascending(header, 32, PARENTS, m) {
        return false;
    }
    wire::items::ascending(header, 36, PAYLOAD, k)
}

// A header inside the domain.
#[derive(Clone, Copy)]
pub struct Header<'a> {
    pub bytes: &'a [u8; HEADER],
    pub ghost shape: { header_shape bytes.now ≡ true },
}

impl<'a> Header<'a> {
    // Refused where the bytes are outside the domain.
    pub fn new(bytes: &'a [u8]) -> Result<Header<'a>, Refusal>
        ensures ok { IsOk result ↔ (header_shape bytes.now ≡ true) }
        ensures is { IfOk result (λ h. h.bytes.now ≡ bytes.now) }
        ensures err { IfErr result (λ e. e ≡ BadShape) }
    {
        if !shape(bytes) {
            return Err(Refusal::BadShape);
        }
        Ok(Header {
            bytes: bytes.try_into().unwrap(),
        })
    }
}
