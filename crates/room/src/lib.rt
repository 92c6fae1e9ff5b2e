// Numbers that stand one behind the other in lent bytes.
#![tactic(auto)]

ghost use Rattle.std.specs.Prelude.{◌≡◌, ◌+◌, ◌*◌, ◌≤◌, length, get_or};
ghost use Rattle.room.specs.Numbers.{numbers_of, rounds_of, Put};

// Number k of a room.
pub fn get(room: &[u8], k: usize) -> usize
    requires { k * 8 + 8 ≤ length room.now }
    ensures { result ≡ get_or (numbers_of room.now) k 0 }
{
    wire::numbers::read_u64(room, k * 8) as usize
}

// Number k of a room becomes x.
pub fn put(room: &mut [u8], k: usize, x: usize)
    requires { k * 8 + 8 ≤ length room.old }
    ensures { Put numbers_of room.old k x room.new }
{
    wire::numbers::put_u64(room, k * 8, x as u64);
}

// Round k.
pub fn get_round(rounds: &[u8], k: usize) -> u32
    requires { k * 4 + 4 ≤ length rounds.now }
    ensures { result ≡ get_or (rounds_of rounds.now) k 0 }
{
    wire::numbers::read_u32(rounds, k * 4)
}

// Round k becomes x.
pub fn put_round(rounds: &mut [u8], k: usize, x: u32)
    requires { k * 4 + 4 ≤ length rounds.old }
    ensures { Put rounds_of rounds.old k x rounds.new }
{
    wire::numbers::put_u32(rounds, k * 4, x);
}
