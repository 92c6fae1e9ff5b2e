// Counting certificates: writing a pair behind those of its round, and giving the digests gathered at quorum.
ghost use Rattle.std.specs.Prelude.{◌≡◌, true, ◌&&◌, [], ◌+◌, ◌-◌, ◌*◌, ◌≤◌, ◌<◌, length, get_or, drop, leb};
ghost use Rattle.wire.specs.Bytes.{splice};
ghost use Rattle.wire.specs.Items.{items, flat};
ghost use Rattle.table.specs.Rows.{count_of, places, shaped, rows_of, appended, with_row};
ghost use Rattle.aggregators.specs.Weight.{digest_of};
ghost use Rattle.aggregators.specs.Tallies.{digests};
ghost use Rattle.aggregators.specs.Certificates.{pair_count, with_pair, empty_row, given, last_digests, certificate_shape, Gives, CountsIn, CountsCertificate};

use crate::rounds::{Counts, Open, PAIR, PAIRS, Place, ROW};
use config::committee::Committee;
use refusal::Refusal;

// The digest of a pair.
pub fn digest_in(pair: &[u8]) -> &[u8; 32]
    requires { 64 ≤ length pair.now }
    ensures { result.now ≡ digest_of pair.now }
{
    pair[32..64].try_into().unwrap()
}

// The digests of a row's pairs from a place up to n, to the front of out.
fn put_digests(row: &[u8], from: usize, n: usize, out: &mut [u8])
    requires from_le_n { from ≤ n }
    requires n_in_bounds { 5 + n * 64 ≤ length row.now }
    requires from_in_bounds { (n - from) * 32 ≤ length out.old }
    ensures { out.new ≡ splice out.old 0 (flat (digests (drop from (items 64 row.now 5 n)))) }
{
    for i in from..n {
        let pair = wire::items::item(row, PAIR, PAIRS, i);
        wire::parts::put_bytes(out, (i - from) * 32, digest_in(pair));
    }
}

// The last k - 1 digests of a row and a new one, to the front of out.
pub fn put_given(row: &Open, k: usize, digest: &[u8; 32], out: &mut [u8])
    requires le_k { 1 ≤ k }
    requires k_bound { k ≤ pair_count row.now.row.now + 1 }
    requires in_bounds { 1024 ≤ length out.old }
    ensures { out.new ≡ splice out.old 0 (flat (last_digests k row.now.row.now digest.now)) }
{
    let row = row.row;
    let n = crate::rounds::pair_count(row);
    put_digests(row, n + 1 - k, n, out);
    wire::parts::put_bytes(out, (k - 1) * 32, digest);
}

// What a row gives with a certificate more: how many digests, and these to the front of out.
pub fn give(
    committee: &Committee,
    row: &Open,
    origin: &[u8; 32],
    digest: &[u8; 32],
    out: &mut [u8],
) -> u32
    requires { 1024 ≤ length out.old }
    ensures { Gives (given committee.now.members.now row.now.row.now origin.now digest.now) out.old result out.new }
{
    let k = row.gives(committee, origin);
    if k == 0 {
        return 0;
    }
    put_given(row, k, digest, out);
    k as u32
}

// A pair more in a row.
pub fn put_pair(row: &mut [u8], origin: &[u8; 32], digest: &[u8; 32])
    requires row_len { length row.old ≡ 2053 }
    requires row_bound { pair_count row.old < 32 }
    ensures { row.new ≡ with_pair row.old origin.now digest.now }
{
    let n = crate::rounds::pair_count(row);
    let at = PAIRS + n * PAIR;
    wire::parts::put_bytes(row, at, origin);
    wire::parts::put_bytes(row, at + 32, digest);
    row[4] = (n + 1) as u8;
}

// A row of a round, with no pair.
pub fn empty_row(round: u32) -> [u8; ROW]
    ensures { result ≡ empty_row round }
{
    let mut row = [0u8; ROW];
    wire::numbers::put_u32(&mut row, 0, round);
    row
}

// A pair more in row i of the table.
pub fn put_in_row(counts: &mut [u8], i: usize, origin: &[u8; 32], digest: &[u8; 32])
    requires counts_value { shaped 2053 counts.old ≡ true }
    requires i_bound { i < count_of counts.old }
    requires i_bound_2 { pair_count (get_or (rows_of 2053 counts.old) i []) < 32 }
    ensures { counts.new ≡ with_row 2053 counts.old i (with_pair (get_or (rows_of 2053 counts.old) i []) origin.now digest.now) }
{
    let at = 8 + i * ROW;
    let end = at + ROW;
    put_pair(&mut counts[at..end], origin, digest);
}

// A certificate more, behind the pairs of row i.
pub fn count_in_row(
    committee: &Committee,
    counts: &mut [u8],
    i: usize,
    origin: &[u8; 32],
    digest: &[u8; 32],
    out: &mut [u8],
) -> u32
    requires counts_value { shaped 2053 counts.old ≡ true }
    requires i_bound { i < count_of counts.old }
    requires i_bound_2 { pair_count (get_or (rows_of 2053 counts.old) i []) < 32 }
    requires in_bounds { 1024 ≤ length out.old }
    ensures { CountsIn (given committee.now.members.now (get_or (rows_of 2053 counts.old) i []) origin.now digest.now) (with_row 2053 counts.old i (with_pair (get_or (rows_of 2053 counts.old) i []) origin.now digest.now)) out.old result counts.new out.new }
{
    let row = table::rows::row(counts, ROW, i).try_into().unwrap();
    let k = give(committee, &Open { row }, origin, digest, out);
    put_in_row(counts, i, origin, digest);
    k
}

// A certificate more, in a new row.
pub fn count_in_new(
    committee: &Committee,
    counts: &mut [u8],
    round: u32,
    origin: &[u8; 32],
    digest: &[u8; 32],
    out: &mut [u8],
) -> u32
    requires counts_value { shaped 2053 counts.old ≡ true }
    requires counts_bound { count_of counts.old < places 2053 counts.old }
    requires in_bounds { 1024 ≤ length out.old }
    ensures { CountsIn (given committee.now.members.now (empty_row round) origin.now digest.now) (appended 2053 counts.old (with_pair (empty_row round) origin.now digest.now)) out.old result counts.new out.new }
{
    let mut row = empty_row(round);
    let k = give(committee, &Open { row: &row }, origin, digest, out);
    put_pair(&mut row, origin, digest);
    table::write::append(counts, ROW, &row);
    k
}

// Whether a round is one that is counted.
fn is_round(round: u64) -> bool
    ensures { result ≡ leb 1 round && leb round 4294967295 }
{
    1 <= round && round <= 4294967295
}

// Whether all but the members is in shape.
#[tactic(auto, unfolding(crate::specs::Certificates::certificate_shape))]
pub fn certificate_shape(
    counts: &[u8],
    round: u64,
    origin: &[u8],
    digest: &[u8],
    out: &[u8],
) -> bool
    ensures { result ≡ certificate_shape counts.now round origin.now digest.now out.now }
{
    crate::rounds::counts_shape(counts)
        && is_round(round)
        && origin.len() == 32
        && digest.len() == 32
        && out.len() == 1024
}

// Counts a certificate in its round: how many digests are given, at the front of out.
pub fn count_certificate(
    members: &[u8],
    counts: &mut [u8],
    round: u64,
    origin: &[u8],
    digest: &[u8],
    out: &mut [u8],
) -> Result<u32, Refusal>
    ensures { CountsCertificate members.now counts.old round origin.now digest.now out.old result counts.new out.new }
{
    let committee = Committee::new(members)?;
    let table = Counts::new(counts)?;
    if !is_round(round) {
        return Err(Refusal::BadShape);
    }
    let origin = refusal::key(origin)?;
    let digest = refusal::key(digest)?;
    if out.len() != 1024 {
        return Err(Refusal::BadShape);
    }
    match table.place_for(round as u32, origin)? {
        Place::Counted => Ok(0),
        Place::Row(i) => Ok(count_in_row(&committee, counts, i, origin, digest, out)),
        Place::New => Ok(count_in_new(&committee, counts, round as u32, origin, digest, out)),
    }
}
