// The walk from a leader on a last-in first-out pile.
ghost use Rattle.std.specs.Prelude.{◌≡◌, ◌+◌, ◌*◌, ◌<◌, ◌≤◌, length};
ghost use Rattle.table.specs.Rows.{count_of};
ghost use Rattle.held.specs.Rows.{held_of};
ghost use Rattle.dag.specs.Steps.{KeptNear, Followed, Walked};

use crate::pile::Pile;
use held::{Held, State};

// Place x is listed behind the m listed before, unless round + depth < top. Answers how many are listed.
fn keep_near(held: &Held, depth: u32, top: u32, x: usize, out: &mut [u8], m: usize) -> usize
    requires x_bound { x < count_of held.now.table.now }
    requires m_in_bounds { m * 8 + 8 ≤ length out.old }
    ensures { KeptNear (held_of held.now.table.now) depth top x out.old m out.new result }
{
    let round = held.round_at(x) as u64;
    if round + (depth as u64) < top as u64 {
        return m;
    }
    room::put(out, m, x);
    m + 1
}

// Takes the top off, lists it and puts its parents on, until the pile is empty. Answers how many are listed.
fn follow(state: &State, depth: u32, pile: &mut Pile, out: &mut [u8]) -> usize
    requires marks_len { length pile.old.marks.now ≡ count_of state.now.held.table.now }
    requires table_in_bounds { count_of state.now.held.table.now * 8 ≤ length out.old }
    ensures { Followed state.now.last.now state.now.held.table.now depth result pile.old.bytes.now pile.old.height pile.new.bytes.now pile.old.marks.now pile.new.marks.now out.old out.new }
{
    let top = held::state::highest(state.last);
    let mut m: usize = 0;
    // A pile grows while it is taken from, so no range counts the turns.
    while 0 < pile.height {
        let bytes = &mut *pile.bytes;
        let x = room::get(bytes, pile.height - 1);
        pile.height -= 1;
        m = keep_near(&state.held, depth, top, x, out, m);
        crate::pile::put_parents(state, x, pile);
    }
    m
}

// Lists what the leader reaches, but for the deep. Answers how many.
pub fn walk(
    state: &State,
    depth: u32,
    leader: usize,
    pile: &mut [u8],
    marks: &mut [u8],
    out: &mut [u8],
) -> usize
    requires leader_bound { leader < count_of state.now.held.table.now }
    requires marks_len { length marks.old ≡ count_of state.now.held.table.now }
    requires table_in_bounds { count_of state.now.held.table.now * 8 ≤ length pile.old }
    requires table_in_bounds_2 { count_of state.now.held.table.now * 8 ≤ length out.old }
    ensures { Walked state.now.last.now state.now.held.table.now depth leader result pile.old pile.new marks.old marks.new out.old out.new }
{
    let size = marks.len();
    wire::parts::clear_bytes(marks, 0, size);
    let mut on = Pile {
        bytes: pile,
        height: 0,
        marks,
    };
    on.put_new(leader);
    follow(state, depth, &mut on, out)
}
