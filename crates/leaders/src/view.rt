// What a decision reads.
ghost use Rattle.std.specs.Prelude.{◌≡◌, ◌-◌, ◌/◌, length};

use config::committee::Setup;
use held::Held;

// A setup, and the table that its members fill.
#[derive(Clone, Copy)]
pub struct View<'s, 'h> {
    pub setup: Setup<'s>,
    pub held: Held<'h>,
    pub ghost members: { held.members ≡ (length setup.bytes.now - 8) / 69 },
}
