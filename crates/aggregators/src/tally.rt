// Counting keys one by one. The weight goes to 0 when it reaches quorum, and what is gathered begins anew behind it.
ghost use Rattle.std.specs.Prelude.{◌≡◌, ◌+◌, ◌*◌, ◌≤◌, length};
ghost use Rattle.wire.specs.Items.{items, key_of, keys};
ghost use Rattle.aggregators.specs.Weight.{is_in, quorum_in, stake_by, enough};
ghost use Rattle.aggregators.specs.Tallies.{fresh, counted, tally_after};

use config::committee::Committee;

// The weight since quorum was last reached, and the place of the first key counted since.
#[derive(Drop)]
pub struct Tally {
    pub weight: u32,
    pub from: usize,
}

// The key that an item begins with.
pub fn key(item: &[u8]) -> &[u8; 32]
    requires { 32 ≤ length item.now }
    ensures { result.now ≡ key_of item.now }
{
    item[0..32].try_into().unwrap()
}

// Whether one of the n items from at begins with the key.
pub fn has_key(list: &[u8], size: usize, at: usize, n: usize, key: &[u8; 32]) -> bool
    requires size_in_bounds { at + n * size ≤ length list.now }
    requires le_size { 32 ≤ size }
    ensures { result ≡ is_in key.now (items size list.now at n) }
{
    let Some(_) = wire::items::find(list, size, at, n, 0, key) else {
        return false;
    };
    true
}

// A key more. Behind it is the place next.
pub fn count_one(t: Tally, quorum: u32, stake: u32, next: usize) -> Tally
    ensures { result ≡ counted quorum stake next t }
{
    let weight = t.weight as u64 + stake as u64;
    if quorum as u64 <= weight {
        return Tally {
            weight: 0,
            from: next,
        };
    }
    Tally {
        weight: weight as u32,
        from: t.from,
    }
}

// The tally of the n items from at, each counted by the key that it begins with.
pub fn count_keys(committee: &Committee, list: &[u8], size: usize, at: usize, n: usize) -> Tally
    requires size_in_bounds { at + n * size ≤ length list.now }
    requires le_size { 32 ≤ size }
    ensures { result ≡ tally_after (quorum_in committee.now.members.now) (stake_by committee.now.members.now) (keys (items size list.now at n)) 0 fresh }
{
    let quorum = committee.quorum_threshold();
    let mut t = Tally { weight: 0, from: 0 };
    for i in 0..n {
        let key = key(wire::items::item(list, size, at, i));
        let stake = config::committee::stake(committee.members, key);
        t = count_one(t, quorum, stake, i + 1);
    }
    t
}

// Whether a key, counted behind a weight, reaches quorum.
pub fn is_enough(committee: &Committee, weight: u32, key: &[u8; 32]) -> bool
    ensures { result ≡ enough (quorum_in committee.now.members.now) weight (stake_by committee.now.members.now key.now) }
{
    let quorum = committee.quorum_threshold();
    let stake = config::committee::stake(committee.members, key);
    quorum as u64 <= weight as u64 + stake as u64
}
