// Certificates put on the pile, and marked.
ghost use Rattle.std.specs.Prelude.{◌≡◌, [], ◌∷◌, ◌+◌, ◌-◌, ◌*◌, ◌<◌, ◌≤◌, eqb, length, get_or};
ghost use Rattle.wire.specs.Items.{item_in};
ghost use Rattle.table.specs.Rows.{count_of};
ghost use Rattle.consensus.specs.Table.{cert_at};
ghost use Rattle.consensus.specs.Walk.{put_one, put_all, open_parents, parents_at};
ghost use Rattle.held.specs.Rows.{held_of, lasts_of, state_of};
ghost use Rattle.dag.specs.Steps.{Sound, Sound-prop, PutOn};

use held::{Held, State};

// The places on the pile, its height, and the marks.
#[derive(Drop)]
pub struct Pile<'p, 'm> {
    pub bytes: &'p mut [u8],
    pub height: usize,
    pub marks: &'m mut [u8],
    pub ghost sound: { Sound bytes.now height marks.now } by { Sound-prop bytes.now height marks.now },
}

impl<'p, 'm> Pile<'p, 'm> {
    // Puts place j on and marks it, unless it is marked already.
    pub fn put_new(&mut self, j: usize)
        requires { j < length self.old.marks.now }
        ensures { PutOn (put_one j) self.old.bytes.now self.old.height self.old.marks.now self.new.bytes.now self.new.height self.new.marks.now }
    {
        if self.marks[j] != 0 {
            return;
        }
        self.marks[j] = 1;
        room::put(self.bytes, self.height, j);
        self.height += 1;
    }
}

// Whether the certificate at place j is of its origin's last committed round.
fn is_last(state: &State, j: usize) -> bool
    requires { j < count_of state.now.held.table.now }
    ensures { result ≡ eqb (get_or (lasts_of state.now.last.now) (cert_at (held_of state.now.held.table.now) j).origin 0) (cert_at (held_of state.now.held.table.now) j).round }
{
    let o = state.held.origin_at(j);
    held::state::last_of(state.last, o) == state.held.round_at(j)
}

// The digest of parent k.
fn parent<'a>(parents: &'a [u8], k: usize) -> &'a [u8; 32]
    requires { k * 32 + 32 ≤ length parents.now }
    ensures { result.now ≡ item_in 32 parents.now 0 k }
{
    wire::items::item(parents, 32, 0, k)
        .as_array::<32>()
        .unwrap()
}

// Puts parent k on, where the round holds it and it is not of its origin's last committed round.
fn put_parent(state: &State, round: u32, parents: &[u8], k: usize, pile: &mut Pile)
    requires k_in_bounds { k * 32 + 32 ≤ length parents.now }
    requires marks_len { length pile.old.marks.now ≡ count_of state.now.held.table.now }
    ensures { PutOn (put_all (open_parents (lasts_of state.now.last.now) (held_of state.now.held.table.now) round (item_in 32 parents.now 0 k ∷ []))) pile.old.bytes.now pile.old.height pile.old.marks.now pile.new.bytes.now pile.new.height pile.new.marks.now }
{
    let Some(j) = state.held.find(round, parent(parents, k)) else {
        return; // not held
    };
    if is_last(state, j) {
        return;
    }
    pile.put_new(j);
}

// The round just below that of place x, and 0 below 0.
fn round_below(held: &Held, x: usize) -> u32
    requires { x < count_of held.now.table.now }
    ensures { result ≡ (cert_at (held_of held.now.table.now) x).round - 1 }
{
    let r = held.round_at(x);
    if r == 0 {
        return 0;
    }
    r - 1
}

// Puts the parents of place x on, in their order.
pub fn put_parents(state: &State, x: usize, pile: &mut Pile)
    requires x_bound { x < count_of state.now.held.table.now }
    requires marks_len { length pile.old.marks.now ≡ count_of state.now.held.table.now }
    ensures { PutOn (put_all (parents_at (state_of state.now.last.now state.now.held.table.now) x)) pile.old.bytes.now pile.old.height pile.old.marks.now pile.new.bytes.now pile.new.height pile.new.marks.now }
{
    let parents = state.held.parents_at(x);
    let round = round_below(&state.held, x);
    let m = parents.len() / 32;
    for k in 0..m {
        put_parent(state, round, parents, k, pile);
    }
}
