// The commit table as a whole.
ghost use Rattle.std.specs.Prelude.{◌≡◌, true, not, ◌&&◌, [], ◌<◌, eqb, IsSome, IfSome, ◌↔◌};
ghost use Rattle.wire.specs.Bytes.{alike};
ghost use Rattle.wire.specs.Items.{all_of};
ghost use Rattle.table.specs.Rows.{shaped, count_of, rows_of};
ghost use Rattle.consensus.specs.Table.{cert_at, clash};
ghost use Rattle.held.specs.Rows.{held_of, held_shape, lawful_row};

use crate::ROW;

// The commit table, where it is one of lawful rows for so many members.
#[derive(Clone, Copy)]
pub struct Held<'a> {
    pub table: &'a [u8],
    pub members: usize,
    pub ghost shape: { held_shape members table.now ≡ true },
}

// Whether all rows in use are lawful where there are n members.
fn all_lawful(table: &[u8], n: usize) -> bool
    requires { shaped 1062 table.now ≡ true }
    ensures { result ≡ all_of (lawful_row n) (rows_of 1062 table.now) }
{
    table::rows::rows(table, ROW).all(|row| crate::row::is_lawful(row, n))
}

// Whether the bytes are a table of lawful rows, with more places than members.
pub fn shape(table: &[u8], n: usize) -> bool
    ensures { result ≡ held_shape n table.now }
{
    if !table::rows::shape(table, ROW) {
        return false;
    }
    if (table.len() - 8) / ROW <= n {
        return false;
    }
    all_lawful(table, n)
}

impl<'a> Held<'a> {
    // None where the bytes are no such table.
    pub fn new(table: &'a [u8], members: usize) -> Option<Held<'a>>
        ensures some { IsSome result ↔ (held_shape members table.now ≡ true) }
        ensures is { IfSome result (λ h. (h.table.now ≡ table.now) × (h.members ≡ members)) }
    {
        if !shape(table, members) {
            return None;
        }
        Some(Held { table, members })
    }

    // How many certificates are held.
    pub fn len(&self) -> usize
        ensures { result ≡ count_of self.now.table.now }
    {
        table::rows::count(self.table)
    }

    // Whether the certificate at place i has this digest under another origin or round.
    fn clashes_at(&self, i: usize, origin: usize, round: u32, digest: &[u8; 32]) -> bool
        requires { i < count_of self.now.table.now }
        ensures { result ≡ (alike (cert_at (held_of self.now.table.now) i).digest digest.now && not (eqb (cert_at (held_of self.now.table.now) i).origin origin && eqb (cert_at (held_of self.now.table.now) i).round round)) }
    {
        if !wire::bytes::same32(self.digest_at(i), 0, digest, 0) {
            return false;
        }
        !self.is_of(i, origin, round)
    }

    // Whether the table holds this digest under another origin or round.
    pub fn clashes(&self, origin: usize, round: u32, digest: &[u8; 32]) -> bool
        ensures { result ≡ clash (record { origin = origin; round = round; digest = digest.now; parents = [] }) (held_of self.now.table.now) }
    {
        (0..self.len()).any(|i| self.clashes_at(i, origin, round, digest))
    }
}
