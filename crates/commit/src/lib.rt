// A commit: leader by leader what is due is listed, last committed rounds are raised, and the table is cleared.
#![tactic(auto)]

ghost use Rattle.std.specs.Prelude.{◌≡◌, true, ◌+◌, ◌*◌, ◌≤◌, ◌<◌, length, take, drop, map};
ghost use Rattle.table.specs.Rows.{count_of};
ghost use Rattle.config.specs.Committee.{leader_place};
ghost use Rattle.consensus.specs.Table.{Cert, cert_at, pair_place, highest};
ghost use Rattle.consensus.specs.Walk.{list_under};
ghost use Rattle.consensus.specs.Listing.{serve};
ghost use Rattle.held.specs.Rows.{held_of, held_shape, lasts_of, state_of};
ghost use Rattle.commit.specs.Commit.{leader_in, leaders_of, Ready, StartOf, DueAt, Written, Turned, Opened, Committed};
ghost use Rattle.room.specs.Numbers.{numbers_of, rounds_of};
ghost use Rattle.update.specs.Update.{Below};

use held::{Held, State};
use update::Places;

// Where the walk under the leader of a round begins.
fn start_of(held: &Held, round: u32) -> usize
    requires le_n { 1 ≤ held.now.members }
    requires table_bound { pair_place (leader_place held.now.members round) round (held_of held.now.table.now) < count_of held.now.table.now }
    ensures { StartOf held.now.members held.now.table.now round result }
{
    let o = config::committee::leader_place(held.members, round as u64);
    let l = held.place_of(o, round).unwrap();
    held.find(round, held.digest_at(l)).unwrap()
}

// The places of what is due under the leader of a round, in the sort room. Answers how many.
fn due(
    state: &[u8],
    held: &Held,
    depth: u64,
    round: u32,
    pile: &mut [u8],
    marks: &mut [u8],
    sort: &mut [u8],
) -> usize
    requires ready { Ready held.now.members depth state.now held.now.table.now pile.old marks.old sort.old }
    requires table_bound { pair_place (leader_place held.now.members round) round (held_of held.now.table.now) < count_of held.now.table.now }
    ensures { DueAt depth state.now held.now.table.now (leader_in held.now.members (held_of held.now.table.now) round) sort.new result }
{
    let start = start_of(held, round);
    let k = held.len();
    let state = State {
        last: state,
        held: *held,
    };
    dag::order_dag(&state, depth as u32, start, pile, &mut marks[0..k], sort)
}

// Lists the certificates at the first m places of the sort room from entry `at` on, raises, and clears. They are due under leader l.
fn list_due(
    state: &mut [u8],
    table: &mut [u8],
    n: usize,
    depth: u64,
    sort: &[u8],
    m: usize,
    list: &mut [u8],
    at: usize,
)
    requires table_value { held_shape n table.old ≡ true }
    requires state_len { length state.old ≡ n * 4 }
    requires depth_bound { depth ≤ 4294967295 }
    requires m_in_bounds { m * 8 ≤ length sort.now }
    requires below { Below (numbers_of sort.now) m (count_of table.old) }
    requires m_in_bounds_2 { (at + m) * 37 ≤ length list.old }
    ensures { Written depth state.old table.old list.old at (map (cert_at (held_of table.old)) (take m (numbers_of sort.now))) state.new table.new list.new }
{
    let held = Held { table, members: n };
    let places = Places {
        held,
        room: sort,
        count: m,
    };
    update::entries::put_list(&places, list, at);
    update::raise::raise_all(state, &places);
    update::clear::clear(table, n, state, depth as u32);
}

// A leader's turn: what is due under the leader of a round is listed from entry `at` on. Answers how many.
fn turn(
    state: &mut [u8],
    table: &mut [u8],
    n: usize,
    depth: u64,
    round: u32,
    pile: &mut [u8],
    marks: &mut [u8],
    sort: &mut [u8],
    list: &mut [u8],
    at: usize,
) -> usize
    requires ready { Ready n depth state.old table.old pile.old marks.old sort.old }
    requires table_bound { pair_place (leader_place n round) round (held_of table.old) < count_of table.old }
    requires state_bound { highest (lasts_of state.old) < round }
    requires table_in_bounds { (at + length (list_under depth (leader_in n (held_of table.old) round) (state_of state.old table.old))) * 37 ≤ length list.old }
    ensures { Turned n depth state.old table.old list.old at (leader_in n (held_of table.old) round) result state.new table.new list.new }
{
    let m = due(
        state,
        &Held { table, members: n },
        depth,
        round,
        pile,
        marks,
        sort,
    );
    list_due(state, table, n, depth, sort, m, list, at);
    m
}

// Serves the k leaders whose rounds stand in the link room from place h on, the last first. Marks stand before them. Answers how many are
// listed.
pub fn serve(
    state: &mut [u8],
    table: &mut [u8],
    n: usize,
    depth: u64,
    k: usize,
    pile: &mut [u8],
    link: &mut [u8],
    h: usize,
    sort: &mut [u8],
    list: &mut [u8],
) -> usize
    requires ready { Ready n depth state.old table.old pile.old link.old sort.old }
    requires table_bound { count_of table.old ≤ h }
    requires h_in_bounds { h ≤ length link.old }
    requires opened { Opened n state.old table.old (drop h link.old) k }
    requires table_in_bounds { length (serve depth (leaders_of n (held_of table.old) (rounds_of (drop h link.old)) k) (state_of state.old table.old)).list * 37 ≤ length list.old }
    ensures { Committed n depth state.old table.old list.old (leaders_of n (held_of table.old) (rounds_of (drop h link.old)) k) result state.new table.new list.new }
{
    let mut at: usize = 0;
    for left in (0..k).rev() {
        let round = room::get_round(&link[h..], left);
        at += turn(
            state,
            table,
            n,
            depth,
            round,
            pile,
            &mut link[0..h],
            sort,
            list,
            at,
        );
    }
    at
}
