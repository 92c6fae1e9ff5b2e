// What is listed under one leader: walked, the deep dropped, sorted by round.
#![tactic(auto)]

mod pile; // certificates put on the pile
mod walk; // the walk from a leader
mod sort; // the list by round

ghost use Rattle.std.specs.Prelude.{◌≡◌, ◌*◌, ◌<◌, ◌≤◌, length};
ghost use Rattle.table.specs.Rows.{count_of};
ghost use Rattle.dag.specs.Ordered.{Ordered};

use held::State;

// Lists in out the places of what the leader's turn commits. Answers how many.
pub fn order_dag(
    state: &State,
    depth: u32,
    leader: usize,
    pile: &mut [u8],
    marks: &mut [u8],
    out: &mut [u8],
) -> usize
    requires leader_bound { leader < count_of state.now.held.table.now }
    requires marks_len { length marks.old ≡ count_of state.now.held.table.now }
    requires table_in_bounds { count_of state.now.held.table.now * 8 ≤ length pile.old }
    requires table_in_bounds_2 { count_of state.now.held.table.now * 8 ≤ length out.old }
    ensures { Ordered state.now.last.now state.now.held.table.now depth leader result pile.old pile.new marks.old marks.new out.old out.new }
{
    let m = walk::walk(state, depth, leader, pile, marks, out);
    sort::sort(&state.held, out, m);
    m
}
