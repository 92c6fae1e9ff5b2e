// Leaders by their rounds: a round's leader, the next earlier candidate, and the lowest, each by one scan of what is held.
ghost use Rattle.std.specs.Prelude.{◌≡◌, ◌<◌, ◌≤◌, length, cond, Option, Some, None, IfSome, unwrap_or};
ghost use Rattle.config.specs.Committee.{leader_place};
ghost use Rattle.table.specs.Rows.{count_of};
ghost use Rattle.consensus.specs.Table.{cert_at};
ghost use Rattle.consensus.proofs.Scan.{candidate, next_round};
ghost use Rattle.consensus.proofs.Settling.{lowest_round};
ghost use Rattle.held.specs.Rows.{held_of};
ghost use Rattle.leaders.specs.Setup.{agreed_of};
ghost use Rattle.leaders.specs.Taking.{leader_at};

use crate::view::View;

impl<'s, 'h> View<'s, 'h> {
    // The place of the member whose turn it is in a round.
    fn turn(&self, round: u32) -> usize
        ensures { result ≡ leader_place (length (agreed_of self.now.setup.bytes.now).stakes) round }
    {
        config::committee::leader_place(self.setup.len(), round as u64)
    }

    // The place of a round's leader, where it is held.
    pub fn leader(&self, round: u32) -> Option<usize>
        ensures value { unwrap_or result (count_of self.now.held.table.now) ≡ leader_at (agreed_of self.now.setup.bytes.now) (held_of self.now.held.table.now) round }
        ensures within { IfSome result (λ i. i < count_of self.now.held.table.now) }
    {
        self.held.place_of(self.turn(round), round)
    }

    // Whether place i holds its round's leader, at r, r - 2 and so on, not below low.
    fn is_candidate(&self, i: usize, low: u32, r: u32) -> bool
        requires i_bound { i < count_of self.now.held.table.now }
        ensures { result ≡ candidate (agreed_of self.now.setup.bytes.now) low r (cert_at (held_of self.now.held.table.now) i) }
    {
        let round = self.held.round_at(i);
        if round < low {
            return false;
        }
        if r < round {
            return false;
        }
        if round % 2 != r % 2 {
            return false;
        }
        self.held.origin_at(i) == self.turn(round)
    }

    // The round of the certificate at place i, where it is a candidate.
    fn candidate_round(&self, i: usize, low: u32, r: u32) -> Option<u32>
        requires i_bound { i < count_of self.now.held.table.now }
        ensures { result ≡ cond (candidate (agreed_of self.now.setup.bytes.now) low r (cert_at (held_of self.now.held.table.now) i)) (Some (cert_at (held_of self.now.held.table.now) i).round) None }
    {
        if !self.is_candidate(i, low, r) {
            return None;
        }
        Some(self.held.round_at(i))
    }

    // The highest candidate round.
    pub fn next_round(&self, low: u32, r: u32) -> Option<u32>
        ensures value { unwrap_or result 0 ≡ next_round (agreed_of self.now.setup.bytes.now) low r (held_of self.now.held.table.now) }
        ensures floor { IfSome result (λ q. low ≤ q) }
    {
        (0..self.held.len())
            .filter_map(|i| self.candidate_round(i, low, r))
            .max()
    }

    // The lowest candidate round. Round 0 stands for none, and is passed over.
    pub fn lowest_round(&self, low: u32, r: u32) -> Option<u32>
        ensures value { unwrap_or result 0 ≡ lowest_round (agreed_of self.now.setup.bytes.now) low r (held_of self.now.held.table.now) }
        ensures floor { IfSome result (λ q. low ≤ q) }
    {
        let low = low.max(1);
        (0..self.held.len())
            .filter_map(|i| self.candidate_round(i, low, r))
            .min()
    }
}
