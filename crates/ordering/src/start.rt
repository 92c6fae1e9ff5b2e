// The start: genesis held at round 0, and every last committed round 0.
ghost use Rattle.std.specs.Prelude.{◌≡◌, [], map, ◌+◌, ◌*◌, ◌/◌, ◌≤◌, ◌<◌, length, replicate};
ghost use Rattle.wire.specs.Bytes.{part, splice};
ghost use Rattle.wire.specs.Items.{items, flat};
ghost use Rattle.genesis.specs.Genesis.{record_digest};
ghost use Rattle.held.specs.Rows.{row_of, cert_with};
ghost use Rattle.ordering.specs.Start.{room_for, valid_start, digests_of, genesis_rows, fresh_table, Started};

use config::committee::Setup;
use refusal::Refusal;

// Whether a table has no byte over and more places than n. What stands in it is not looked at.
fn has_room(table: &[u8], n: usize) -> bool
    ensures { result ≡ room_for n table.now }
{
    if table.len() < 8 {
        return false;
    }
    let body = table.len() - 8;
    if body % held::ROW != 0 {
        return false;
    }
    n < body / held::ROW
}

// Whether the inputs beside the setup are in the domain.
fn is_start(members: &[u8], genesis: &[u8], state: &[u8], table: &[u8]) -> bool
    ensures { result ≡ valid_start members.now genesis.now state.now table.now }
{
    let n = members.len() / config::members::MEMBER;
    if !genesis::valid_genesis(members, genesis) {
        return false; // not the members' genesis
    }
    if state.len() != n * 4 {
        return false;
    }
    has_room(table, n)
}

// The row of member i's genesis certificate, into zeros: round 0, its member index, no parents, its digest.
fn put_row(table: &mut [u8], i: usize, digest: &[u8])
    requires i_bound { i < 256 }
    requires i_in_bounds { 8 + i * 1062 + 1062 ≤ length table.old }
    requires i_value { part table.old (8 + i * 1062) 1062 ≡ replicate 1062 0 }
    requires digest_len { length digest.now ≡ 32 }
    ensures { table.new ≡ splice table.old (8 + i * 1062) (row_of (cert_with i 0 digest.now [])) }
{
    let at = 8 + i * held::ROW;
    wire::numbers::put_u8(table, at + 4, i as u8);
    wire::parts::put_bytes(table, at + 6, digest);
}

// The rows of the n records of genesis, into a table of zeros.
fn put_rows(table: &mut [u8], genesis: &[u8], n: usize)
    requires n_bound { n ≤ 32 }
    requires n_in_bounds { n * 68 ≤ length genesis.now }
    requires n_in_bounds_2 { 8 + n * 1062 ≤ length table.old }
    requires table_value { table.old ≡ replicate (length table.old) 0 }
    ensures { table.new ≡ splice table.old 8 (flat (genesis_rows (map record_digest (items 68 genesis.now 0 n)))) }
{
    for i in 0..n {
        let one = genesis::digest(wire::items::item(genesis, genesis::RECORD, 0, i));
        put_row(table, i, one);
    }
}

// The table at the start.
fn start_table(genesis: &[u8], table: &mut [u8])
    requires genesis_len_bound { length genesis.now / 68 ≤ 32 }
    requires genesis_in_bounds { 8 + length genesis.now / 68 * 1062 ≤ length table.old }
    ensures { table.new ≡ fresh_table (length table.old) (digests_of genesis.now) }
{
    let n = genesis.len() / genesis::RECORD;
    let size = table.len();
    wire::parts::clear_bytes(table, 0, size);
    put_rows(table, genesis, n);
    wire::numbers::put_u64(table, 0, n as u64);
}

// Genesis held at round 0, nothing else, and every last committed round 0.
pub fn start(
    setup: &[u8],
    genesis: &[u8],
    state: &mut [u8],
    table: &mut [u8],
) -> Result<usize, Refusal>
    ensures { Started setup.now genesis.now state.old table.old result state.new table.new }
{
    let setup = Setup::new(setup)?;
    let committee = setup.committee();
    if !is_start(committee.members, genesis, state, table) {
        return Err(Refusal::BadShape);
    }
    start_table(genesis, table);
    let size = state.len();
    wire::parts::clear_bytes(state, 0, size);
    Ok(0)
}
