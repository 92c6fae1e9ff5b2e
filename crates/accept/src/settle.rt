// Whether a certificate is refused or opens a commit, decided on what is held before it is put in.
ghost use Rattle.std.specs.Prelude.{◌≡◌, ◌||◌, [], ltb};
ghost use Rattle.table.specs.Rows.{count_of, places};
ghost use Rattle.consensus.specs.Table.{Cert, pair_place};
ghost use Rattle.held.specs.Rows.{held_of, state_of};
ghost use Rattle.leaders.specs.Setup.{agreed_of};
ghost use Rattle.accept.specs.Course.{course_of};

use held::Held;
use leaders::View;
use refusal::Refusal;

// Whether there is a place: the one that has this origin and round, or a free one.
fn has_place(held: &Held, origin: usize, round: u32) -> bool
    ensures { result ≡ (ltb (pair_place origin round (held_of held.now.table.now)) (count_of held.now.table.now) || ltb (count_of held.now.table.now) (places 1062 held.now.table.now)) }
{
    if held.place_of(origin, round).is_some() {
        return true;
    }
    table::rows::room(held.table, held::ROW)
}

// Whether a certificate of this member, round and digest opens a commit once it is put in. Refused where its digest is held under another
// origin or round, where there is no place for it, and where a round that the Rust would visit holds nothing.
pub fn settle(
    view: &View,
    origin: usize,
    round: u32,
    digest: &[u8; 32],
    state: &[u8],
) -> Result<bool, Refusal>
    ensures { result ≡ course_of (agreed_of view.now.setup.bytes.now) (places 1062 view.now.held.table.now) (state_of state.now view.now.held.table.now) (record { origin = origin; round = round; digest = digest.now; parents = [] }) }
{
    if view.held.clashes(origin, round, digest) {
        return Err(Refusal::DigestClash);
    }
    if !has_place(&view.held, origin, round) {
        return Err(Refusal::NoRoom);
    }
    view.decide(state, round)
}
