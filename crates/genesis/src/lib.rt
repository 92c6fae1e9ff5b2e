// Genesis: one record for each member, in the members' order. A record: round 4, origin key 32, digest 32.
#![tactic(auto)]

ghost use Rattle.std.specs.Prelude.{◌≡◌, ◌+◌, ◌-◌, ◌*◌, ◌≤◌, ◌<◌, length};
ghost use Rattle.wire.specs.Items.{items, item_in, first_of, has_part};
ghost use Rattle.genesis.specs.Genesis.{record_digest, belongs, paired, distinct, valid_genesis};

use config::members::MEMBER;

pub const RECORD: usize = 68;

// The digest of a record.
pub fn digest<'a>(known: &'a [u8]) -> &'a [u8; 32]
    requires { length known.now ≡ 68 }
    ensures { result.now ≡ record_digest known.now }
{
    known[36..68].try_into().unwrap()
}

// Whether a record is of round 0 and of this member.
fn is_of(member: &[u8], known: &[u8]) -> bool
    requires in_bounds { 32 ≤ length member.now }
    requires known_len { length known.now ≡ 68 }
    ensures { result ≡ belongs member.now known.now }
{
    if wire::numbers::read_u32(known, 0) != 0 {
        return false;
    }
    wire::bytes::same32(known, 4, member, 0)
}

// Whether each of the n records is of the member at its place.
fn all_of(members: &[u8], genesis: &[u8], n: usize) -> bool
    requires n_in_bounds { n * 69 ≤ length members.now }
    requires n_in_bounds_2 { n * 68 ≤ length genesis.now }
    ensures { result ≡ paired (items 69 members.now 0 n) (items 68 genesis.now 0 n) }
{
    wire::items::items(members, MEMBER, 0, n)
        .zip(wire::items::items(genesis, RECORD, 0, n))
        .all(|(member, known)| is_of(member, known))
}

// Where the first later record has the digest of record i.
fn same_later(genesis: &[u8], n: usize, i: usize) -> Option<usize>
    requires n_in_bounds { n * 68 ≤ length genesis.now }
    requires i_lt_n { i < n }
    ensures { result ≡ first_of (has_part 36 (record_digest (item_in 68 genesis.now 0 i))) (items 68 genesis.now ((i + 1) * 68) (n - (i + 1))) 0 }
{
    let next = i + 1;
    wire::items::find(
        genesis,
        RECORD,
        next * RECORD,
        n - next,
        36,
        digest(wire::items::item(genesis, RECORD, 0, i)),
    )
}

// Whether the digests of the n records are all different.
fn all_different(genesis: &[u8], n: usize) -> bool
    requires { n * 68 ≤ length genesis.now }
    ensures { result ≡ distinct (items 68 genesis.now 0 n) }
{
    (0..n).all(|i| same_later(genesis, n, i).is_none())
}

// Whether genesis is that of these members.
pub fn valid_genesis(members: &[u8], genesis: &[u8]) -> bool
    ensures { result ≡ valid_genesis members.now genesis.now }
{
    let n = members.len() / MEMBER;
    if genesis.len() != n * RECORD {
        return false;
    }
    if !all_of(members, genesis, n) {
        return false;
    }
    all_different(genesis, n)
}
