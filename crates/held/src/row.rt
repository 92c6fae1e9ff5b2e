// A row: round 4, member index 1, parent count 1, digest 32, parents 32 x 32. Bytes past the parents mean nothing.
ghost use Rattle.std.specs.Prelude.{◌≡◌, ◌≤◌, ◌<◌, length};
ghost use Rattle.wire.specs.Items.{flat};
ghost use Rattle.table.specs.Rows.{round_of};
ghost use Rattle.held.specs.Rows.{origin_in, parent_count, digest_in, parents_in, lawful_row};

pub fn round(row: &[u8]) -> u32
    requires { length row.now ≡ 1062 }
    ensures { result ≡ round_of row.now }
{
    wire::numbers::read_u32(row, 0)
}

pub fn origin(row: &[u8]) -> usize
    requires { length row.now ≡ 1062 }
    ensures value { result ≡ origin_in row.now }
    ensures byte { result < 256 }
{
    row[4] as usize
}

pub fn parent_count(row: &[u8]) -> usize
    requires { length row.now ≡ 1062 }
    ensures { result ≡ parent_count row.now }
{
    row[5] as usize
}

pub fn digest<'a>(row: &'a [u8]) -> &'a [u8; 32]
    requires { length row.now ≡ 1062 }
    ensures { result.now ≡ digest_in row.now }
{
    row[6..38].as_array::<32>().unwrap()
}

// The parents' digests, one behind the other.
pub fn parents<'a>(row: &'a [u8]) -> &'a [u8]
    requires row_len { length row.now ≡ 1062 }
    requires row_bound { parent_count row.now ≤ 32 }
    ensures { result.now ≡ flat (parents_in row.now) }
{
    let end = 38 + parent_count(row) * 32;
    &row[38..end]
}

// Whether a row is lawful where there are n members.
pub fn is_lawful(row: &[u8], n: usize) -> bool
    requires { length row.now ≡ 1062 }
    ensures { result ≡ lawful_row n row.now }
{
    if n <= origin(row) {
        return false;
    }
    if 32 < parent_count(row) {
        return false;
    }
    if round(row) != 0 {
        return true;
    }
    parent_count(row) == 0
}
