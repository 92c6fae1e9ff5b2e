// The strings that are hashed, written field by field to parts of a lent buffer.
ghost use Rattle.std.specs.Prelude.{◌≡◌, true, map, ◌+◌, ◌*◌, ◌≤◌, length};
ghost use Rattle.wire.specs.Items.{flat};
ghost use Rattle.messages.specs.Header.{parent_count, payload_count, parents_of, payload_of, header_shape};
ghost use Rattle.messages.specs.Strings.{payload_item, header_string, vote_string};

use crate::header::{HEADER, PARENTS};

// A payload digest, then its worker id.
fn write_item(item: &[u8; 36], out: &mut [u8])
    requires out_len { length out.old ≡ 36 }
    ensures { out.new ≡ payload_item item.now }
{
    wire::parts::put_bytes(out, 0, crate::header::digest(item));
    wire::numbers::put_u32(out, 32, crate::header::worker(item));
}

// Each payload item.
fn write_payload(header: &[u8; HEADER], out: &mut [u8])
    requires header_bound { payload_count header.now ≤ 64 }
    requires out_len { length out.old ≡ payload_count header.now * 36 }
    ensures { out.new ≡ flat (map payload_item (payload_of header.now)) }
{
    let n = crate::header::payload_count(header);
    for i in 0..n {
        let from = i * 36;
        let end = from + 36;
        write_item(crate::header::payload(header, i), &mut out[from..end]);
    }
}

// Each parent.
fn write_parents(header: &[u8; HEADER], out: &mut [u8])
    requires header_bound { parent_count header.now ≤ 32 }
    requires out_len { length out.old ≡ parent_count header.now * 32 }
    ensures { out.new ≡ flat (parents_of header.now) }
{
    let n = crate::header::parent_count(header);
    wire::parts::put_bytes(out, 0, &header[PARENTS..PARENTS + n * 32]);
}

// How long a header's string is.
pub fn header_length(header: &[u8; HEADER]) -> usize
    requires header_bound { parent_count header.now ≤ 32 }
    requires header_bound_2 { payload_count header.now ≤ 64 }
    ensures { result ≡ length (header_string header.now) }
{
    let k = crate::header::payload_count(header);
    let m = crate::header::parent_count(header);
    40 + k * 36 + m * 32
}

// A header's string, into a part of its length. The round is any.
pub fn write_header(header: &[u8; HEADER], out: &mut [u8])
    requires header_bound { parent_count header.now ≤ 32 }
    requires header_bound_2 { payload_count header.now ≤ 64 }
    requires out_len { length out.old ≡ 40 + payload_count header.now * 36 + parent_count header.now * 32 }
    ensures { out.new ≡ header_string header.now }
{
    let parents = 40 + crate::header::payload_count(header) * 36;
    wire::parts::put_bytes(out, 0, crate::header::author(header));
    wire::numbers::put_u64(out, 32, crate::header::round(header));
    write_payload(header, &mut out[40..parents]);
    write_parents(header, &mut out[parents..]);
}

// A vote's and a certificate's string, into a part of 72 bytes. The round is any.
pub fn write_vote(id: &[u8; 32], round: u64, origin: &[u8; 32], out: &mut [u8])
    requires out_len { length out.old ≡ 72 }
    ensures { out.new ≡ vote_string id.now round origin.now }
{
    wire::parts::put_bytes(out, 0, id);
    wire::numbers::put_u64(out, 32, round);
    wire::parts::put_bytes(out, 40, origin);
}
