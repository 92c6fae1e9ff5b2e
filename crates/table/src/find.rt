// The first row in use that has a part.
ghost use Rattle.std.specs.Prelude.{◌≡◌, true, ◌+◌, ◌≤◌, length};
ghost use Rattle.wire.specs.Items.{first_of, has_part};
ghost use Rattle.table.specs.Rows.{shaped, rows_of, has_round_part};

// The first row in use that has what, from at.
pub fn find_part(table: &[u8], size: usize, at: usize, what: &[u8]) -> Option<usize>
    requires table_value { shaped size table.now ≡ true }
    requires what_bound { at + length what.now ≤ size }
    ensures { result ≡ first_of (has_part at what.now) (rows_of size table.now) 0 }
{
    let n = crate::rows::count(table);
    wire::items::find(table, size, 8, n, at, what)
}

// Whether a row is of the round, and has what, from at.
pub fn row_round_has(row: &[u8], round: u32, at: usize, what: &[u8]) -> bool
    requires in_bounds { 4 ≤ length row.now }
    requires what_in_bounds { at + length what.now ≤ length row.now }
    ensures { result ≡ has_round_part round at what.now row.now }
{
    if wire::numbers::read_u32(row, 0) != round {
        return false;
    }
    wire::items::has(row, at, what)
}

// The first row in use that is of the round and has what, from at.
pub fn find_round_part(
    table: &[u8],
    size: usize,
    round: u32,
    at: usize,
    what: &[u8],
) -> Option<usize>
    requires table_value { shaped size table.now ≡ true }
    requires le_size { 4 ≤ size }
    requires what_bound { at + length what.now ≤ size }
    ensures { result ≡ first_of (has_round_part round at what.now) (rows_of size table.now) 0 }
{
    crate::rows::rows(table, size).position(|row| row_round_has(row, round, at, what))
}
