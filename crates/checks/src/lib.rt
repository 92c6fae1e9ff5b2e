// The checks of header, vote and certificate, in the Rust's order.
#![tactic(auto)]

ghost use Rattle.std.specs.Prelude.{◌≡◌, ◌≤◌, ◌<◌, eqb, IfOk, IfErr, OnOk, OnErr};
ghost use Rattle.refusal.specs.declared.Refusal.TheVariants.{BadShape};

use refusal::Refusal;

pub mod header; // id 1, author 2, workers 3, signature 4
pub mod vote; // author 2, signature 4
pub mod certificate; // the header's, then vote by vote 5 before 2, then 7, then batch 4

// A verdict of the host, a number as the C interface gives it: 1 is yes, 0 is no, and all else is refused.
fn verdict(ok: u8) -> Result<bool, Refusal>
    ensures value { IfOk result (λ b. b ≡ eqb ok 1) }
    ensures inside { OnOk result (ok ≤ 1) }
    ensures refused { IfErr result (λ e. e ≡ BadShape) }
    ensures outside { OnErr result (1 < ok) }
{
    if 1 < ok {
        return Err(Refusal::BadShape);
    }
    Ok(ok == 1)
}
