// Whether a certificate opens a commit. All is read before anything is written.
ghost use Rattle.std.specs.Prelude.{◌≡◌};
ghost use Rattle.consensus.specs.Leaders.{decide};
ghost use Rattle.held.specs.Rows.{held_of, lasts_of};
ghost use Rattle.leaders.specs.Setup.{agreed_of, kind_of};

use crate::view::View;
use refusal::Refusal;

impl<'s, 'h> View<'s, 'h> {
    // Whether a certificate of this round opens a commit: of the leader three rounds below and of those that join. Refused where a round
    // that the Rust would visit holds nothing.
    pub fn decide(&self, state: &[u8], round: u32) -> Result<bool, Refusal>
        ensures { result ≡ kind_of (decide (agreed_of self.now.setup.bytes.now) round (lasts_of state.now) (held_of self.now.held.table.now)) }
    {
        if round % 2 != 1 {
            return Ok(false);
        }
        if round < 5 {
            return Ok(false);
        }
        let top = held::state::highest(state);
        if round - 3 <= top {
            return Ok(false);
        }
        let Some(p) = self.leader(round - 3) else {
            return Ok(false); // its leader is not held
        };
        if !self.held.has_round(round - 2) {
            return Err(Refusal::HistoryMissing);
        }
        if !self.is_supported(round - 2, self.held.digest_at(p)) {
            return Ok(false);
        }
        let lowest = self.lowest_round(top + 2, round - 4);
        let Some(q) = lowest else {
            return Ok(true); // alone
        };
        if crate::link::is_unbroken(self.held.table, q, round - 3) {
            return Ok(true); // no link test meets a gap
        }
        Err(Refusal::HistoryMissing)
    }
}
