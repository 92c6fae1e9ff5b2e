// The stake behind a leader.
ghost use Rattle.std.specs.Prelude.{◌≡◌, [], ◌∷◌, ◌-◌, ◌/◌, ◌<◌, leb, length, get_or};
ghost use Rattle.config.specs.Committee.{validity};
ghost use Rattle.table.specs.Rows.{count_of};
ghost use Rattle.consensus.specs.Table.{cert_at, of_round};
ghost use Rattle.consensus.specs.Leaders.{stake_naming, total_stake};
ghost use Rattle.held.specs.Rows.{held_of};
ghost use Rattle.leaders.specs.Setup.{agreed_of};

use crate::view::View;
use config::committee::Setup;
use config::members::MEMBER;

// The stake of the member at place o.
fn stake_at(setup: &Setup, o: usize) -> u32
    requires { o < (length setup.now.bytes.now - 8) / 69 }
    ensures { result ≡ get_or (agreed_of setup.now.bytes.now).stakes o 0 }
{
    config::members::stake_in(wire::items::item(setup.bytes, MEMBER, 8, o))
}

impl<'s, 'h> View<'s, 'h> {
    // The stake of the certificate at place i, where it is of the round and names the digest as parent; else 0.
    fn stake_naming(&self, i: usize, round: u32, digest: &[u8; 32]) -> u32
        requires i_bound { i < count_of self.now.held.table.now }
        ensures { result ≡ stake_naming (agreed_of self.now.setup.bytes.now).stakes digest.now (of_round round (cert_at (held_of self.now.held.table.now) i ∷ [])) }
    {
        if self.held.round_at(i) != round {
            return 0;
        }
        if !self.held.names(i, digest) {
            return 0;
        }
        stake_at(&self.setup, self.held.origin_at(i))
    }

    // Whether the stake of those of a round that name the digest as parent reaches validity. The sum stops there, so no table makes it wrap.
    pub fn is_supported(&self, round: u32, digest: &[u8; 32]) -> bool
        ensures { result ≡ leb (validity (total_stake (agreed_of self.now.setup.bytes.now).stakes)) (stake_naming (agreed_of self.now.setup.bytes.now).stakes digest.now (of_round round (held_of self.now.held.table.now))) }
    {
        let need = self.setup.committee().validity_threshold() as u64;
        let count = self.held.len();
        let mut sum: u64 = 0;
        for i in 0..count {
            sum += self.stake_naming(i, round, digest) as u64;
            if need <= sum {
                return true;
            }
        }
        false
    }
}
