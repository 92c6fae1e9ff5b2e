// A certificate put in the table.
ghost use Rattle.std.specs.Prelude.{◌≡◌, true, ◌||◌, ◌+◌, ◌*◌, ◌/◌, ◌≤◌, length, ltb};
ghost use Rattle.wire.specs.Bytes.{splice};
ghost use Rattle.table.specs.Rows.{shaped, count_of, places};
ghost use Rattle.consensus.specs.Table.{pair_place};
ghost use Rattle.held.specs.Rows.{held_of, head_of, row_of, table_with, cert_with};

use crate::ROW;

// Fills a row up to its parents.
fn fill_head(row: &mut [u8], origin: u8, round: u32, count: u8, digest: &[u8; 32])
    requires row_len { length row.old ≡ 1062 }
    ensures { row.new ≡ splice row.old 0 (head_of origin round count digest.now) }
{
    wire::numbers::put_u32(row, 0, round);
    wire::numbers::put_u8(row, 4, origin);
    wire::numbers::put_u8(row, 5, count);
    wire::parts::put_bytes(row, 6, digest);
}

// Fills a row. Parents are digests, one behind the other.
fn fill(row: &mut [u8], origin: u8, round: u32, digest: &[u8; 32], parents: &[u8])
    requires row_len { length row.old ≡ 1062 }
    requires parents_len { length parents.now / 32 * 32 ≡ length parents.now }
    requires parents_len_bound { length parents.now ≤ 1024 }
    ensures { row.new ≡ row_of (cert_with origin round digest.now parents.now) }
{
    let k = parents.len();
    fill_head(row, origin, round, (k / 32) as u8, digest);
    wire::parts::put_bytes(row, 38, parents);
    wire::parts::clear_bytes(row, 38 + k, 1024 - k);
}

// Fills row i of the table.
fn fill_at(table: &mut [u8], i: usize, origin: u8, round: u32, digest: &[u8; 32], parents: &[u8])
    requires i_in_bounds { 8 + i * 1062 + 1062 ≤ length table.old }
    requires parents_len { length parents.now / 32 * 32 ≡ length parents.now }
    requires parents_len_bound { length parents.now ≤ 1024 }
    ensures { table.new ≡ splice table.old (8 + i * 1062) (row_of (cert_with origin round digest.now parents.now)) }
{
    let at = 8 + i * ROW;
    let end = at + ROW;
    fill(&mut table[at..end], origin, round, digest, parents);
}

// Puts a certificate in: over the one that has its origin and round, or behind the last.
pub fn insert(table: &mut [u8], origin: u8, round: u32, digest: &[u8; 32], parents: &[u8])
    requires table_value { shaped 1062 table.old ≡ true }
    requires table_value_2 { (ltb (pair_place origin round (held_of table.old)) (count_of table.old) || ltb (count_of table.old) (places 1062 table.old)) ≡ true }
    requires parents_len { length parents.now / 32 * 32 ≡ length parents.now }
    requires parents_len_bound { length parents.now ≤ 1024 }
    ensures { table.new ≡ table_with (cert_with origin round digest.now parents.now) table.old }
{
    let n = table::rows::count(table);
    let i = crate::place::place_in(table, origin as usize, round).unwrap_or(n);
    fill_at(table, i, origin, round, digest, parents);
    if i == n {
        wire::numbers::put_u64(table, 0, (n + 1) as u64);
    }
}
