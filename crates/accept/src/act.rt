// The certificate put in, and the commit that it opens.
ghost use Rattle.std.specs.Prelude.{◌≡◌, ◌*◌, ◌≤◌, length, drop, replicate};
ghost use Rattle.wire.specs.Bytes.{splice};
ghost use Rattle.table.specs.Rows.{count_of, places};
ghost use Rattle.held.specs.Rows.{cert_with, table_with};
ghost use Rattle.accept.specs.Commits.{Opening, Found, Commits, Given, Opens, Rooms};

use config::committee::Setup;
use held::Held;
use leaders::View;

// All of a room 0.
fn zero(room: &mut [u8])
    ensures { room.new ≡ replicate (length room.old) 0 }
{
    let n = room.len();
    wire::parts::clear_bytes(room, 0, n);
}

// The leaders of the commit that a certificate of this round opens: their rounds stand in the link room past a byte for each that is held.
// Answers how many.
fn find_leaders(view: &View, round: u32, state: &[u8], walk: &mut [u8], link: &mut [u8]) -> usize
    requires opening { Opening view.now.setup.bytes.now round state.now view.now.held.table.now }
    requires walk_len { length walk.old ≡ count_of view.now.held.table.now * 8 }
    requires link_len { length link.old ≡ count_of view.now.held.table.now * 8 }
    ensures { Found view.now.setup.bytes.now round state.now view.now.held.table.now (drop (count_of view.now.held.table.now) link.new) result }
{
    let opener = view.leader(round - 3).unwrap();
    let h = view.held.len();
    view.order_leaders(state, opener, &mut walk[0..h], &mut link[h..])
}

// Commits: lists, raises and clears, leader by leader. Answers how many are listed.
fn commit(
    setup: &Setup,
    round: u32,
    state: &mut [u8],
    table: &mut [u8],
    list: &mut [u8],
    walk: &mut [u8],
    sort: &mut [u8],
    link: &mut [u8],
) -> usize
    requires opening { Opening setup.now.bytes.now round state.old table.old }
    requires table_in_bounds { places 1062 table.old * 37 ≤ length list.old }
    requires walk_len { length walk.old ≡ count_of table.old * 8 }
    requires sort_len { length sort.old ≡ count_of table.old * 8 }
    requires link_len { length link.old ≡ count_of table.old * 8 }
    ensures { Commits setup.now.bytes.now round state.old table.old list.old result state.new table.new list.new }
{
    let n = setup.len();
    let depth = config::committee::depth(setup.bytes);
    let held = Held { table, members: n };
    let h = held.len();
    let view = View {
        setup: *setup,
        held,
    };
    let k = find_leaders(&view, round, state, walk, link);
    commit::serve(state, table, n, depth, k, walk, link, h, sort, list)
}

// The same, and the rooms, 8 bytes for each that is held, are left 0.
fn commit_clean(
    setup: &Setup,
    round: u32,
    state: &mut [u8],
    table: &mut [u8],
    list: &mut [u8],
    walk: &mut [u8],
    sort: &mut [u8],
    link: &mut [u8],
) -> usize
    requires opening { Opening setup.now.bytes.now round state.old table.old }
    requires table_in_bounds { places 1062 table.old * 37 ≤ length list.old }
    requires walk_len { length walk.old ≡ count_of table.old * 8 }
    requires sort_len { length sort.old ≡ count_of table.old * 8 }
    requires link_len { length link.old ≡ count_of table.old * 8 }
    ensures commits { Commits setup.now.bytes.now round state.old table.old list.old result state.new table.new list.new }
    ensures walk_after { walk.new ≡ replicate (length walk.old) 0 }
    ensures sort_after { sort.new ≡ replicate (length sort.old) 0 }
    ensures link_after { link.new ≡ replicate (length link.old) 0 }
{
    let m = commit(setup, round, state, table, list, walk, sort, link);
    zero(walk);
    zero(sort);
    zero(link);
    m
}

// The same with rooms of which w bytes are used, 8 for each that is held.
fn commit_with(
    setup: &Setup,
    round: u32,
    w: usize,
    state: &mut [u8],
    table: &mut [u8],
    list: &mut [u8],
    walk: &mut [u8],
    sort: &mut [u8],
    link: &mut [u8],
) -> usize
    requires opening { Opening setup.now.bytes.now round state.old table.old }
    requires table_in_bounds { places 1062 table.old * 37 ≤ length list.old }
    requires w_value { w ≡ count_of table.old * 8 }
    requires w_in_bounds { w ≤ length walk.old }
    requires w_in_bounds_2 { w ≤ length sort.old }
    requires w_in_bounds_3 { w ≤ length link.old }
    ensures commits { Commits setup.now.bytes.now round state.old table.old list.old result state.new table.new list.new }
    ensures walk_after { walk.new ≡ splice walk.old 0 (replicate w 0) }
    ensures sort_after { sort.new ≡ splice sort.old 0 (replicate w 0) }
    ensures link_after { link.new ≡ splice link.old 0 (replicate w 0) }
{
    commit_clean(
        setup,
        round,
        state,
        table,
        list,
        &mut walk[0..w],
        &mut sort[0..w],
        &mut link[0..w],
    )
}

// The certificate is put in, and the commit that it opens is made. Of each room as much is used as is held then. Answers how many are
// listed.
pub fn hold_and_commit(
    setup: &Setup,
    origin: usize,
    round: u32,
    digest: &[u8; 32],
    parents: &[u8],
    state: &mut [u8],
    table: &mut [u8],
    list: &mut [u8],
    walk: &mut [u8],
    sort: &mut [u8],
    link: &mut [u8],
) -> usize
    requires given { Given setup.now.bytes.now origin round digest.now parents.now state.old table.old list.old walk.old sort.old link.old }
    requires opens { Opens setup.now.bytes.now (cert_with origin round digest.now parents.now) state.old table.old }
    ensures commits { Commits setup.now.bytes.now round state.old (table_with (cert_with origin round digest.now parents.now) table.old) list.old result state.new table.new list.new }
    ensures rooms { Rooms (cert_with origin round digest.now parents.now) table.old walk.old sort.old link.old walk.new sort.new link.new }
{
    held::insert::insert(table, origin as u8, round, digest, parents);
    let w = table::rows::count(table) * 8;
    commit_with(setup, round, w, state, table, list, walk, sort, link)
}
