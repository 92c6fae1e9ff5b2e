// What each call says of when a header is due.
ghost use Rattle.std.specs.Prelude.{◌≡◌, ◌↔◌, true, IsOk, IfOk, IfErr};
ghost use Rattle.proposer.specs.Events.{valid_pace};
ghost use Rattle.refusal.specs.declared.Refusal.TheVariants.{BadShape};

use refusal::Refusal;

// The payload's size from which a header is due, and the timer's verdict, 1 where it has run out.
#[derive(Clone, Copy)]
pub struct Pace {
    pub header_size: u64,
    pub timer: u8,
}

impl Pace {
    // Refused where one of them is outside the domain. The timer is a number, as the C interface gives it.
    #[tactic(auto, unfolding(crate::specs::Events::valid_pace))]
    pub fn new(header_size: u64, timer: u8) -> Result<Pace, Refusal>
        ensures ok { IsOk result ↔ (valid_pace header_size timer ≡ true) }
        ensures is { IfOk result (λ p. (p.header_size ≡ header_size) × (p.timer ≡ timer)) }
        ensures err { IfErr result (λ e. e ≡ BadShape) }
    {
        if 4294967295 < header_size {
            return Err(Refusal::BadShape);
        }
        if 1 < timer {
            return Err(Refusal::BadShape);
        }
        Ok(Pace { header_size, timer })
    }
}
