// Places of what is held.
ghost use Rattle.std.specs.Prelude.{◌≡◌, ◌*◌, ◌≤◌, ◌<◌, length, get_or};
ghost use Rattle.table.specs.Rows.{count_of};
ghost use Rattle.room.specs.Numbers.{numbers_of};
ghost use Rattle.update.specs.Update.{Below, Below-prop};

use held::Held;

// So many places, which stand in a room.
#[derive(Clone, Copy)]
pub struct Places<'h, 'r> {
    pub held: Held<'h>,
    pub room: &'r [u8],
    pub count: usize,
    pub ghost fits: { count * 8 ≤ length room.now },
    pub ghost below: { Below (numbers_of room.now) count (count_of held.table.now) } by { Below-prop (numbers_of room.now) count (count_of held.table.now) },
}

impl<'h, 'r> Places<'h, 'r> {
    // Place k of these.
    pub fn at(&self, k: usize) -> usize
        requires { k < self.now.count }
        ensures value { result ≡ get_or (numbers_of self.now.room.now) k 0 }
        ensures below { result < count_of self.now.held.table.now }
    {
        room::get(self.room, k)
    }
}
