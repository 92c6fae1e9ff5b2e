// The certificate at a place of the table.
ghost use Rattle.std.specs.Prelude.{◌≡◌, true, not, ◌&&◌, eqb, ◌<◌, length, IfSome, unwrap_or};
ghost use Rattle.wire.specs.Items.{flat};
ghost use Rattle.table.specs.Rows.{shaped, count_of, round_of};
ghost use Rattle.consensus.specs.Table.{cert_at, find, pair_place, of_round, is_empty};
ghost use Rattle.consensus.specs.Leaders.{is_in};
ghost use Rattle.held.specs.Rows.{held_of, origin_in};

use crate::ROW;
use crate::whole::Held;

// Whether a row has this origin and round.
fn row_is_of(row: &[u8], origin: usize, round: u32) -> bool
    requires { length row.now ≡ 1062 }
    ensures { result ≡ (eqb (origin_in row.now) origin && eqb (round_of row.now) round) }
{
    if crate::row::origin(row) != origin {
        return false;
    }
    crate::row::round(row) == round
}

// Whether the certificate at place i has this origin and round, whatever else the rows say.
pub fn is_of(table: &[u8], i: usize, origin: usize, round: u32) -> bool
    requires table_value { shaped 1062 table.now ≡ true }
    requires i_bound { i < count_of table.now }
    ensures { result ≡ (eqb (cert_at (held_of table.now) i).origin origin && eqb (cert_at (held_of table.now) i).round round) }
{
    row_is_of(table::rows::row(table, ROW, i), origin, round)
}

// Whether a round holds a certificate, whatever else the rows say.
pub fn has_round(table: &[u8], round: u32) -> bool
    requires { shaped 1062 table.now ≡ true }
    ensures { result ≡ not (is_empty (of_round round (held_of table.now))) }
{
    table::rows::rows(table, ROW).any(|row| crate::row::round(row) == round)
}

// The first place with this origin and round, whatever else the rows say.
pub(crate) fn place_in(table: &[u8], origin: usize, round: u32) -> Option<usize>
    requires { shaped 1062 table.now ≡ true }
    ensures value { unwrap_or result (count_of table.now) ≡ pair_place origin round (held_of table.now) }
    ensures within { IfSome result (λ i. i < count_of table.now) }
{
    table::rows::rows(table, ROW).position(|row| row_is_of(row, origin, round))
}

impl<'a> Held<'a> {
    // The round of the certificate at place i.
    pub fn round_at(&self, i: usize) -> u32
        requires { i < count_of self.now.table.now }
        ensures { result ≡ (cert_at (held_of self.now.table.now) i).round }
    {
        crate::row::round(table::rows::row(self.table, ROW, i))
    }

    // The place of its origin among the members.
    pub fn origin_at(&self, i: usize) -> usize
        requires { i < count_of self.now.table.now }
        ensures value { result ≡ (cert_at (held_of self.now.table.now) i).origin }
        ensures byte { result < 256 }
    {
        crate::row::origin(table::rows::row(self.table, ROW, i))
    }

    // Its digest, as a part of the table.
    pub fn digest_at(&self, i: usize) -> &'a [u8; 32]
        requires { i < count_of self.now.table.now }
        ensures { result.now ≡ (cert_at (held_of self.now.table.now) i).digest }
    {
        crate::row::digest(table::rows::row(self.table, ROW, i))
    }

    // Its parents' digests, one behind the other, as a part of the table.
    pub fn parents_at(&self, i: usize) -> &'a [u8]
        requires { i < count_of self.now.table.now }
        ensures { result.now ≡ flat (cert_at (held_of self.now.table.now) i).parents }
    {
        crate::row::parents(table::rows::row(self.table, ROW, i))
    }

    // Whether the certificate at place i names a digest as parent.
    pub fn names(&self, i: usize, digest: &[u8; 32]) -> bool
        requires { i < count_of self.now.table.now }
        ensures { result ≡ is_in digest.now (cert_at (held_of self.now.table.now) i).parents }
    {
        let ps = self.parents_at(i);
        let Some(_) = wire::items::find(ps, 32, 0, ps.len() / 32, 0, digest) else {
            return false;
        };
        true
    }

    // The first place with this round and digest.
    pub fn find(&self, round: u32, digest: &[u8; 32]) -> Option<usize>
        ensures value { unwrap_or result (count_of self.now.table.now) ≡ find round digest.now (held_of self.now.table.now) }
        ensures within { IfSome result (λ i. i < count_of self.now.table.now) }
    {
        table::find::find_round_part(self.table, ROW, round, 6, digest)
    }

    // Whether a round holds a certificate.
    pub fn has_round(&self, round: u32) -> bool
        ensures { result ≡ not (is_empty (of_round round (held_of self.now.table.now))) }
    {
        has_round(self.table, round)
    }

    // The first place with this origin and round.
    pub fn place_of(&self, origin: usize, round: u32) -> Option<usize>
        ensures value { unwrap_or result (count_of self.now.table.now) ≡ pair_place origin round (held_of self.now.table.now) }
        ensures within { IfSome result (λ i. i < count_of self.now.table.now) }
    {
        place_in(self.table, origin, round)
    }

    // Whether the certificate at place i has this origin and round.
    pub fn is_of(&self, i: usize, origin: usize, round: u32) -> bool
        requires { i < count_of self.now.table.now }
        ensures { result ≡ (eqb (cert_at (held_of self.now.table.now) i).origin origin && eqb (cert_at (held_of self.now.table.now) i).round round) }
    {
        is_of(self.table, i, origin, round)
    }
}
