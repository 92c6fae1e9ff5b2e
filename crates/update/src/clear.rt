// The table cleared: a certificate goes below its origin's last committed round, or deeper than the depth below the highest of all.
ghost use Rattle.std.specs.Prelude.{◌≡◌, true, ◌+◌, ◌*◌, ◌≤◌, length};
ghost use Rattle.sweep.specs.Kept.{kept};
ghost use Rattle.consensus.specs.Table.{highest};
ghost use Rattle.held.specs.Rows.{held_shape, lasts_of, origin_in};
ghost use Rattle.update.specs.Update.{stays_row};

use held::ROW;

// Whether a row's certificate stays. top is the highest last committed round.
fn stays(row: &[u8], state: &[u8], depth: u32, top: u32) -> bool
    requires row_len { length row.now ≡ 1062 }
    requires row_in_bounds { origin_in row.now * 4 + 4 ≤ length state.now }
    requires top_value { top ≡ highest (lasts_of state.now) }
    ensures { result ≡ stays_row depth (lasts_of state.now) row.now }
{
    let round = held::row::round(row);
    if round < held::state::last_of(state, held::row::origin(row)) {
        return false;
    }
    top as u64 <= round as u64 + depth as u64
}

// Clears the table.
pub fn clear(table: &mut [u8], n: usize, state: &[u8], depth: u32)
    requires table_value { held_shape n table.old ≡ true }
    requires state_len { length state.now ≡ n * 4 }
    ensures { table.new ≡ kept 1062 (stays_row depth (lasts_of state.now)) table.old }
{
    let top = held::state::highest(state);
    let k = table::rows::count(table);
    let mut m: usize = 0;
    for i in 0..k {
        let keep = stays(table::rows::row(table, ROW, i), state, depth, top);
        m = sweep::move_row(table, ROW, i, m, keep);
    }
    sweep::finish(table, ROW, k, m);
}
