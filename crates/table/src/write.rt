// Rows written.
ghost use Rattle.std.specs.Prelude.{◌≡◌, true, ◌<◌, length};
ghost use Rattle.table.specs.Rows.{count_of, places, shaped, appended, with_row};

// A row more, at the end.
pub fn append(table: &mut [u8], size: usize, new: &[u8])
    requires table_value { shaped size table.old ≡ true }
    requires table_bound { count_of table.old < places size table.old }
    requires len { length new.now ≡ size }
    ensures { table.new ≡ appended size table.old new.now }
{
    let n = crate::rows::count(table);
    wire::parts::put_bytes(table, 8 + n * size, new);
    wire::numbers::put_u64(table, 0, (n + 1) as u64);
}

// Row i changed.
pub fn set_row(table: &mut [u8], size: usize, i: usize, new: &[u8])
    requires table_value { shaped size table.old ≡ true }
    requires i_bound { i < count_of table.old }
    requires len { length new.now ≡ size }
    ensures { table.new ≡ with_row size table.old i new.now }
{
    wire::parts::put_bytes(table, 8 + i * size, new);
}
