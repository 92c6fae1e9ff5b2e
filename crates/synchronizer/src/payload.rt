// Payload: a pair (digest, worker id) is there when one of the own workers has it. The host fills the pairs.
ghost use Rattle.std.specs.Prelude.{◌≡◌, ◌≤◌, length};
ghost use Rattle.wire.specs.Items.{keeps};
ghost use Rattle.messages.specs.Header.{payload_of};
ghost use Rattle.synchronizer.specs.Picked.{Picked};
ghost use Rattle.synchronizer.specs.Payload.{pairs_of, unpaired, missing_payload};

use messages::header::Header;

pub const PAIR: usize = 36;

// Whether a payload item is no pair of the own workers.
fn is_unpaired(pairs: &[u8], item: &[u8; 36]) -> bool
    ensures { result ≡ unpaired (pairs_of pairs.now) item.now }
{
    let n = pairs.len() / PAIR;
    if let Some(_) = wire::items::find(pairs, PAIR, 0, n, 0, item) {
        return false;
    }
    true
}

// The missing pairs of another's header, in payload order, at the front of out. Answers how many there are.
fn missing_of(pairs: &[u8], header: &Header, out: &mut [u8]) -> usize
    requires { 2304 ≤ length out.old }
    ensures { Picked (keeps (unpaired (pairs_of pairs.now)) (payload_of header.now.bytes.now)) out.old result out.new }
{
    let bytes = header.bytes;
    let n = messages::header::payload_count(bytes);
    let mut m: usize = 0;
    for i in 0..n {
        let item = messages::header::payload(bytes, i);
        let missing = is_unpaired(pairs, item);
        m = crate::picks::put_if(out, PAIR, m, item, missing);
    }
    m
}

// The missing pairs of a header: none of an own one.
pub fn missing_payload(own: &[u8; 32], pairs: &[u8], header: &Header, out: &mut [u8]) -> usize
    requires { 2304 ≤ length out.old }
    ensures { Picked (missing_payload own.now (pairs_of pairs.now) header.now.bytes.now) out.old result out.new }
{
    if wire::bytes::same32(messages::header::author(header.bytes), 0, own, 0) {
        return 0;
    }
    missing_of(pairs, header, out)
}
