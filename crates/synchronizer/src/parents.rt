// Parents: looked up first in genesis, then in the known table.
ghost use Rattle.std.specs.Prelude.{◌≡◌, [], not, ◌≤◌, length, IfSome, IfNone};
ghost use Rattle.table.specs.Rows.{rows_of};
ghost use Rattle.genesis.specs.Genesis.{records_of};
ghost use Rattle.messages.specs.Header.{parents_of};
ghost use Rattle.synchronizer.specs.Picked.{Picked};
ghost use Rattle.synchronizer.specs.Parents.{parent_of, lacks, missing_parents, delivered};

use crate::known::Known;
use genesis::RECORD;
use messages::header::{Header, PARENTS};

// The record with the digest, as part of whichever slice holds it; none where neither does.
pub fn parent<'a>(genesis: &'a [u8], known: &Known<'a>, digest: &[u8; 32]) -> Option<&'a [u8]>
    ensures found { IfSome result (λ r. r.now ≡ parent_of (records_of genesis.now) (rows_of 68 known.now.table.now) digest.now) }
    ensures none { IfNone result (parent_of (records_of genesis.now) (rows_of 68 known.now.table.now) digest.now ≡ []) }
    ensures record { IfSome result (λ r. length r.now ≡ 68) }
{
    let n = genesis.len() / RECORD;
    if let Some(i) = wire::items::find(genesis, RECORD, 0, n, 36, digest) {
        return Some(wire::items::item(genesis, RECORD, 0, i));
    }
    if let Some(i) = table::find::find_part(known.table, RECORD, 36, digest) {
        return Some(table::rows::row(known.table, RECORD, i));
    }
    None
}

// Whether a parent is in neither.
pub fn is_missing<'a>(genesis: &'a [u8], known: &Known<'a>, digest: &[u8; 32]) -> bool
    ensures { result ≡ lacks (records_of genesis.now) (rows_of 68 known.now.table.now) digest.now }
{
    parent(genesis, known, digest).is_none()
}

// The missing parents of a header, in their order, at the front of out. Answers how many there are.
pub fn missing_parents<'a>(
    genesis: &'a [u8],
    known: &Known<'a>,
    header: &Header,
    out: &mut [u8],
) -> usize
    requires { 1024 ≤ length out.old }
    ensures { Picked (missing_parents (records_of genesis.now) (rows_of 68 known.now.table.now) (parents_of header.now.bytes.now)) out.old result out.new }
{
    let bytes = header.bytes;
    let n = messages::header::parent_count(bytes);
    let mut m: usize = 0;
    for i in 0..n {
        let digest = messages::header::parent(bytes, i);
        let missing = is_missing(genesis, known, digest);
        m = crate::picks::put_if(out, 32, m, digest, missing);
    }
    m
}

// Whether all parents of a certificate's header are there.
pub fn deliver_certificate<'a>(genesis: &'a [u8], known: &Known<'a>, header: &Header) -> bool
    ensures { result ≡ delivered (records_of genesis.now) (rows_of 68 known.now.table.now) (parents_of header.now.bytes.now) }
{
    let bytes = header.bytes;
    let n = messages::header::parent_count(bytes);
    wire::items::items(bytes, 32, PARENTS, n).all(|digest| !is_missing(
        genesis,
        known,
        digest.try_into().unwrap(),
    ))
}
