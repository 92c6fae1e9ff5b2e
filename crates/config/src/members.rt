// A member's row: key 32, stake 4, worker count 1, worker ids 8 x 4. Ids past the count mean nothing.
ghost use Rattle.std.specs.Prelude.{◌≡◌, ◌≤◌, ◌<◌, length};
ghost use Rattle.config.specs.Members.{stake_in, worker_count, lawful, has_worker};

pub const MEMBER: usize = 69;

// The stake of a member.
pub fn stake_in(member: &[u8]) -> u32
    requires { 36 ≤ length member.now }
    ensures { result ≡ stake_in member.now }
{
    wire::numbers::read_u32(member, 32)
}

// How many workers a member says that it has.
fn worker_count(member: &[u8]) -> usize
    requires { 37 ≤ length member.now }
    ensures { result ≡ worker_count member.now }
{
    member[36] as usize
}

// Whether a member has stake, and no more workers than there are places for.
pub fn is_lawful(member: &[u8]) -> bool
    requires { 37 ≤ length member.now }
    ensures { result ≡ lawful member.now }
{
    if stake_in(member) < 1 {
        return false;
    }
    worker_count(member) <= 8
}

// Whether a member has a worker of this id.
pub fn has_worker(member: &[u8], id: u32) -> bool
    requires in_bounds { 69 ≤ length member.now }
    requires member_bound { worker_count member.now ≤ 8 }
    ensures { result ≡ has_worker id member.now }
{
    wire::items::items(member, 4, 37, worker_count(member)).any(|w| wire::numbers::read_u32(w, 0)
        == id)
}
