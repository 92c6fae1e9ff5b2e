// The leaders of a commit: the opening one, and the earlier ones that join.
ghost use Rattle.std.specs.Prelude.{◌≡◌, ◌*◌, ◌<◌, ◌≤◌, length};
ghost use Rattle.table.specs.Rows.{count_of};
ghost use Rattle.held.specs.Rows.{held_of, lasts_of};
ghost use Rattle.leaders.specs.Setup.{agreed_of};
ghost use Rattle.leaders.specs.Taking.{Opener, Taken};

use crate::view::View;

impl<'s, 'h> View<'s, 'h> {
    // Writes the rounds of the commit's leaders, from the opening one at its place down, and says how many they are.
    pub fn order_leaders(
        &self,
        state: &[u8],
        opener: usize,
        marks: &mut [u8],
        rounds: &mut [u8],
    ) -> usize
        requires opener_bound { opener < count_of self.now.held.table.now }
        requires marks_len { length marks.old ≡ count_of self.now.held.table.now }
        requires table_in_bounds { count_of self.now.held.table.now * 4 ≤ length rounds.old }
        requires opener { Opener (agreed_of self.now.setup.bytes.now) (lasts_of state.now) (held_of self.now.held.table.now) opener }
        ensures { Taken (agreed_of self.now.setup.bytes.now) (lasts_of state.now) (held_of self.now.held.table.now) opener result rounds.old rounds.new }
    {
        let first = self.held.round_at(opener);
        let low = held::state::highest(state) + 2;
        room::put_round(rounds, 0, first);
        let mut last = opener; // the leader taken last
        let mut k: usize = 1;
        let mut r = first - 1;
        // No index: each turn begins below the candidate that the last one found.
        while let Some(q) = self.next_round(low, r) {
            let p = self.leader(q).unwrap();
            r = q - 2;
            if !crate::link::reaches(&self.held, marks, last, p) {
                continue;
            }
            room::put_round(rounds, k, q);
            last = p;
            k += 1;
        }
        k
    }
}
