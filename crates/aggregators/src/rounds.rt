// The certificates counted in each round: a table with a row for each round, read and never written here.
// A row: round 4, how many pairs 1, then 32 pairs of an origin's key and a digest, in the order counted.
ghost use Rattle.std.specs.Prelude.{◌≡◌, true, false, ◌≤◌, ◌<◌, length, IfOk, IfErr, OnOk, OnErr};
ghost use Rattle.wire.specs.Items.{first_of, all_of};
ghost use Rattle.table.specs.Rows.{shaped, rows_of};
ghost use Rattle.aggregators.specs.Weight.{is_in};
ghost use Rattle.aggregators.specs.Certificates.{pair_count, pairs_of, of_round, few_pairs, are_counts, given_count, place_for};
ghost use Rattle.refusal.specs.declared.Refusal.TheVariants.{BadShape};

use config::committee::Committee;
use refusal::Refusal;

pub const ROW: usize = 2053;

pub const PAIR: usize = 64;

pub const PAIRS: usize = 5; // where a row's pairs begin

// Where a certificate is counted.
#[derive(Drop)]
pub enum Place {
    Counted, // its origin is counted in its round
    Row(usize), // behind the pairs of this row
    New, // in a new row
}

// How many pairs a row has.
pub fn pair_count(row: &[u8]) -> usize
    requires { 5 ≤ length row.now }
    ensures { result ≡ pair_count row.now }
{
    row[4] as usize
}

// Whether a row has no more pairs than there are places for.
pub fn has_few_pairs(row: &[u8]) -> bool
    requires { 5 ≤ length row.now }
    ensures { result ≡ few_pairs row.now }
{
    pair_count(row) <= 32
}

// Whether all rows in use are such.
fn all_few(counts: &[u8]) -> bool
    requires { shaped 2053 counts.now ≡ true }
    ensures { result ≡ all_of few_pairs (rows_of 2053 counts.now) }
{
    table::rows::rows(counts, ROW).all(|row| has_few_pairs(row))
}

// Whether the bytes are a table of such rows.
pub fn counts_shape(counts: &[u8]) -> bool
    ensures { result ≡ are_counts counts.now }
{
    if !table::rows::shape(counts, ROW) {
        return false;
    }
    all_few(counts)
}

// Whether a row is of a round.
fn is_of_round(row: &[u8], round: u32) -> bool
    requires { 4 ≤ length row.now }
    ensures { result ≡ of_round round row.now }
{
    wire::numbers::read_u32(row, 0) == round
}

// The first row of a round.
pub fn find_round(counts: &[u8], round: u32) -> Option<usize>
    requires { shaped 2053 counts.now ≡ true }
    ensures { result ≡ first_of (of_round round) (rows_of 2053 counts.now) 0 }
{
    table::rows::rows(counts, ROW).position(|row| is_of_round(row, round))
}

// Whether an origin is counted in a row.
pub fn has_origin(row: &[u8; ROW], origin: &[u8; 32]) -> bool
    requires { few_pairs row.now ≡ true }
    ensures { result ≡ is_in origin.now (pairs_of row.now) }
{
    crate::tally::has_key(row, PAIR, PAIRS, pair_count(row), origin)
}

// A table of such rows.
#[derive(Clone, Copy)]
pub struct Counts<'a> {
    pub bytes: &'a [u8],
    pub ghost shape: { are_counts bytes.now ≡ true },
}

impl<'a> Counts<'a> {
    // The table in these bytes; refused where they are none.
    pub fn new(bytes: &'a [u8]) -> Result<Counts<'a>, Refusal>
        ensures bytes { IfOk result (λ c. c.bytes.now ≡ bytes.now) }
        ensures inside { OnOk result (are_counts bytes.now ≡ true) }
        ensures refused { IfErr result (λ e. e ≡ BadShape) }
        ensures outside { OnErr result (are_counts bytes.now ≡ false) }
    {
        if !counts_shape(bytes) {
            return Err(Refusal::BadShape);
        }
        Ok(Counts { bytes })
    }

    // Where a certificate of the origin is counted.
    pub fn place_for(&self, round: u32, origin: &[u8; 32]) -> Result<Place, Refusal>
        ensures { result ≡ place_for self.now.bytes.now round origin.now }
    {
        let Some(i) = find_round(self.bytes, round) else {
            if table::rows::room(self.bytes, ROW) {
                return Ok(Place::New);
            }
            return Err(Refusal::NoRoom);
        };
        let row = table::rows::row(self.bytes, ROW, i).try_into().unwrap();
        if has_origin(row, origin) {
            return Ok(Place::Counted);
        }
        if 32 <= pair_count(row) {
            return Err(Refusal::NoRoom);
        }
        Ok(Place::Row(i))
    }
}

// A row with a place for a pair more.
#[derive(Clone, Copy)]
pub struct Open<'a> {
    pub row: &'a [u8; ROW],
    pub ghost few: { pair_count row.now < 32 },
}

impl<'a> Open<'a> {
    // How many digests the row gives with a certificate of the origin more: at quorum those gathered and the new one.
    pub fn gives(&self, committee: &Committee, origin: &[u8; 32]) -> usize
        ensures { result ≡ given_count committee.now.members.now self.now.row.now origin.now }
    {
        let row = self.row;
        let n = pair_count(row);
        let t = crate::tally::count_keys(committee, row, PAIR, PAIRS, n);
        if !crate::tally::is_enough(committee, t.weight, origin) {
            return 0;
        }
        n - t.from + 1
    }
}
