// Keeping some rows of a table: those kept stay in order and move together, and zeros stand between the new count and the old.
#![tactic(auto)]

ghost use Rattle.std.specs.Prelude.{◌≡◌, true, ◌+◌, ◌-◌, ◌*◌, ◌≤◌, length};
ghost use Rattle.table.specs.Rows.{shaped};
ghost use Rattle.sweep.specs.Kept.{kept, went, moved, counted, finished, from_round};

// A turn of a loop that keeps rows: row i goes to place m where it is kept. Answers how many are kept.
pub fn move_row(table: &mut [u8], size: usize, i: usize, m: usize, keep: bool) -> usize
    requires le_size { 1 ≤ size }
    requires m_le_i { m ≤ i }
    requires size_in_bounds { 8 + i * size + size ≤ length table.old }
    ensures table_after { table.new ≡ moved size table.old i m keep }
    ensures value { result ≡ counted m keep }
{
    if !keep {
        return m;
    }
    if m == i {
        return m + 1;
    }
    wire::parts::copy_down(table, 8 + i * size, 8 + m * size, size);
    m + 1
}

// The end of such a loop, where m of the n rows are kept: zeros behind them, and the count. Answers how many went.
pub fn finish(table: &mut [u8], size: usize, n: usize, m: usize) -> usize
    requires m_le_n { m ≤ n }
    requires size_in_bounds { 8 + n * size ≤ length table.old }
    ensures table_after { table.new ≡ finished size table.old n m }
    ensures value { result ≡ n - m }
{
    let gone = n - m;
    wire::parts::clear_bytes(table, 8 + m * size, gone * size);
    wire::numbers::put_u64(table, 0, m as u64);
    gone
}

// Whether a row is of the round or later.
pub fn row_from(row: &[u8], round: u64) -> bool
    requires { 4 ≤ length row.now }
    ensures { result ≡ from_round round row.now }
{
    round <= wire::numbers::read_u32(row, 0) as u64
}

// Keeps the rows of the round or later. Answers how many went.
pub fn keep_from(table: &mut [u8], size: usize, round: u64) -> usize
    requires table_value { shaped size table.old ≡ true }
    requires le_size { 4 ≤ size }
    ensures table_after { table.new ≡ kept size (from_round round) table.old }
    ensures value { result ≡ went size (from_round round) table.old }
{
    let n = table::rows::count(table);
    let mut m: usize = 0;
    for i in 0..n {
        let keep = row_from(table::rows::row(table, size, i), round);
        m = move_row(table, size, i, m, keep);
    }
    finish(table, size, n, m)
}
