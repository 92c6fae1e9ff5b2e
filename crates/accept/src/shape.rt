// What a call takes.
ghost use Rattle.std.specs.Prelude.{◌≡◌, ◌<◌, ◌≤◌};
ghost use Rattle.accept.specs.Shape.{valid_parents, valid_certificate, has_places, valid_lent};

// Whether parents are 0 to 32 digests, strictly ascending, with no byte over.
fn are_parents(parents: &[u8]) -> bool
    ensures { result ≡ valid_parents parents.now }
{
    if parents.len() % 32 != 0 {
        return false;
    }
    let k = parents.len() / 32;
    if 32 < k {
        return false;
    }
    wire::items::ascending(parents, 32, 0, k)
}

// Whether a certificate is in the domain.
pub fn is_certificate(origin: &[u8], round: u64, digest: &[u8], parents: &[u8]) -> bool
    ensures { result ≡ valid_certificate origin.now round digest.now parents.now }
{
    if origin.len() != 32 {
        return false;
    }
    if digest.len() != 32 {
        return false;
    }
    if round < 1 {
        return false;
    }
    if 4294967295 < round {
        return false;
    }
    are_parents(parents)
}

// Whether a buffer has at least n places of a size, with no byte over.
fn has_places(room: &[u8], size: usize, n: usize) -> bool
    requires { 0 < size }
    ensures { result ≡ has_places size n room.now }
{
    if room.len() % size != 0 {
        return false;
    }
    n <= room.len() / size
}

// Whether what is lent is in the domain, where there are n members.
pub fn is_lent(
    n: usize,
    state: &[u8],
    table: &[u8],
    list: &[u8],
    walk: &[u8],
    sort: &[u8],
    link: &[u8],
) -> bool
    requires { n ≤ 32 }
    ensures { result ≡ valid_lent n state.now table.now list.now walk.now sort.now link.now }
{
    if state.len() != n * 4 {
        return false;
    }
    if !held::whole::shape(table, n) {
        return false;
    }
    let places = (table.len() - 8) / held::ROW;
    if !has_places(list, 37, places) {
        return false;
    }
    if !has_places(walk, 8, places) {
        return false;
    }
    if !has_places(sort, 8, places) {
        return false;
    }
    has_places(link, 8, places)
}
