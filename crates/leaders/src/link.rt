// Rounds without a gap, and the link test between two leaders, each by a walk that calls itself one round lower.
ghost use Rattle.std.specs.Prelude.{◌≡◌, true, false, not, [], ◌∷◌, ◌-◌, ◌<◌, ◌≤◌, length, get_or};
ghost use Rattle.table.specs.Rows.{count_of, shaped};
ghost use Rattle.consensus.specs.Table.{cert_at};
ghost use Rattle.consensus.specs.Leaders.{link, linked, named, has_digest};
ghost use Rattle.consensus.proofs.Hole.{hole_in};
ghost use Rattle.held.specs.Rows.{held_of};
ghost use Rattle.leaders.specs.Fronts.{is_front, front_of, Unmarked, marked_at, Follows};

use held::Held;

// Whether each round from low up to the one below upper holds a certificate. It ends at the first that holds none, so it calls itself no
// more often than there are held ones.
pub fn is_unbroken(table: &[u8], low: u32, upper: u32) -> bool
    requires { shaped 1062 table.now ≡ true }
    ensures { result ≡ not (hole_in (upper - low) low (held_of table.now)) }
{
    if upper <= low {
        return true;
    }
    if !held::place::has_round(table, upper - 1) {
        return false;
    }
    is_unbroken(table, low, upper - 1)
}

// A table with a mark for each of its places. The front in a round is what is marked and of that round.
#[derive(Clone, Copy)]
struct Marked<'t, 'm> {
    held: Held<'t>,
    marks: &'m [u8],
    ghost size: { length marks.now ≡ count_of held.table.now },
}

impl<'t, 'm> Marked<'t, 'm> {
    // Whether place i is marked and of the round.
    fn is_front(&self, i: usize, round: u32) -> bool
        requires { i < count_of self.now.held.table.now }
        ensures { result ≡ is_front round (get_or self.now.marks.now i 0) (cert_at (held_of self.now.held.table.now) i) }
    {
        if self.marks[i] == 0 {
            return false;
        }
        self.held.round_at(i) == round
    }

    // Whether one of the front has the digest.
    fn has_digest(&self, round: u32, digest: &[u8; 32]) -> bool
        ensures { result ≡ has_digest digest.now (front_of round self.now.marks.now (held_of self.now.held.table.now)) }
    {
        (0..self.marks.len()).any(|i| self.is_front(i, round)
            && wire::bytes::same32(self.held.digest_at(i), 0, digest, 0))
    }

    // Whether one of the front names the digest as parent.
    fn is_named(&self, round: u32, digest: &[u8; 32]) -> bool
        ensures { result ≡ named digest.now (front_of round self.now.marks.now (held_of self.now.held.table.now)) }
    {
        (0..self.marks.len()).any(|i| self.is_front(i, round) && self.held.names(i, digest))
    }
}

// Marks place i, where its certificate is of the round below upper and one of the front names it as parent.
fn mark_named(held: &Held, marks: &mut [u8], i: usize, upper: u32)
    requires marks_len { length marks.old ≡ count_of held.now.table.now }
    requires i_bound { i < count_of held.now.table.now }
    requires upper_nonzero { 0 < upper }
    ensures { marks.new ≡ marked_at (held_of held.now.table.now) upper i marks.old }
{
    if held.round_at(i) != upper - 1 {
        return;
    }
    let held = *held;
    let marked = Marked { held, marks };
    if !marked.is_named(upper, held.digest_at(i)) {
        return;
    }
    marks[i] = 1;
}

// The front goes one round lower: all of that round that it names are marked.
fn follow(held: &Held, marks: &mut [u8], upper: u32)
    requires marks_len { length marks.old ≡ count_of held.now.table.now }
    requires upper_nonzero { 0 < upper }
    requires unmarked { Unmarked upper marks.old (held_of held.now.table.now) }
    ensures { Follows (held_of held.now.table.now) upper marks.old marks.new }
{
    let count = held.len();
    for i in 0..count {
        mark_named(held, marks, i, upper);
    }
}

// Whether the front in round upper reaches the digest of round lower through held parents. No round between holds nothing.
fn linked(held: &Held, marks: &mut [u8], upper: u32, lower: u32, digest: &[u8; 32]) -> bool
    requires marks_len { length marks.old ≡ count_of held.now.table.now }
    requires lower_le_upper { lower ≤ upper }
    requires unmarked { Unmarked upper marks.old (held_of held.now.table.now) }
    requires table_value_2 { hole_in (upper - lower) lower (held_of held.now.table.now) ≡ false }
    ensures { link result ≡ linked (upper - lower) lower digest.now (front_of upper marks.old (held_of held.now.table.now)) (held_of held.now.table.now) }
{
    if upper == lower {
        let held = *held;
        return Marked { held, marks }.has_digest(lower, digest);
    }
    follow(held, marks, upper);
    linked(held, marks, upper - 1, lower, digest)
}

// Whether the leader at place from reaches the one at place to.
pub fn reaches(held: &Held, marks: &mut [u8], from: usize, to: usize) -> bool
    requires marks_len { length marks.old ≡ count_of held.now.table.now }
    requires from_bound { from < count_of held.now.table.now }
    requires to_bound { to < count_of held.now.table.now }
    requires to_bound_2 { (cert_at (held_of held.now.table.now) to).round ≤ (cert_at (held_of held.now.table.now) from).round }
    requires table_value_2 { hole_in ((cert_at (held_of held.now.table.now) from).round - (cert_at (held_of held.now.table.now) to).round) (cert_at (held_of held.now.table.now) to).round (held_of held.now.table.now) ≡ false }
    ensures { link result ≡ linked ((cert_at (held_of held.now.table.now) from).round - (cert_at (held_of held.now.table.now) to).round) (cert_at (held_of held.now.table.now) to).round (cert_at (held_of held.now.table.now) to).digest (cert_at (held_of held.now.table.now) from ∷ []) (held_of held.now.table.now) }
{
    let count = marks.len();
    wire::parts::clear_bytes(marks, 0, count);
    marks[from] = 1;
    let upper = held.round_at(from);
    let lower = held.round_at(to);
    linked(held, marks, upper, lower, held.digest_at(to))
}
