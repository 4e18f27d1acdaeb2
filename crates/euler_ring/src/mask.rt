//! A set of node ids as the bits of a word: id i is in it if bit i is 1. A network has at most
//! 64 nodes.
ghost use Rattle.std.specs.Prelude.{◌≡◌, ◌≢◌, ℕ, ◌<◌, length, drop, true};
ghost use Rattle.euler_ring.specs.Cycle.{lowest, highest, above, below};
ghost use Rattle.euler_ring.specs.Mask.{has_id, ids_of};

/// Whether the id is in the set.
pub fn has(ids: u64, id: u16) -> bool
    requires { id < 64 }
    ensures { result ≡ has_id ids id }
{
    ids >> id & 1 == 1
}

/// How many ids there are.
pub fn count(ids: u64) -> usize
    ensures { result ≡ length (ids_of ids) }
{
    ids.count_ones() as usize
}

/// The smallest id, if there is one.
pub fn lowest(ids: u64) -> Option<u16>
    ensures { result ≡ lowest (ids_of ids) }
{
    if ids == 0 {
        return None;
    }
    Some(ids.trailing_zeros() as u16)
}

/// The largest id, if there is one.
pub fn highest(ids: u64) -> Option<u16>
    ensures { result ≡ highest (ids_of ids) }
{
    if ids == 0 {
        return None;
    }
    Some((63 - ids.leading_zeros()) as u16)
}

/// The ids above this one.
pub fn above(ids: u64, id: u16) -> u64
    requires { id < 64 }
    ensures { ids_of result ≡ above id (ids_of ids) }
{
    ids & !(u64::MAX >> (63 - id))
}

/// The ids below this one.
pub fn below(ids: u64, id: u16) -> u64
    requires { id < 64 }
    ensures { ids_of result ≡ below id (ids_of ids) }
{
    ids & !(u64::MAX << id)
}

/// The ids without the smallest.
pub fn without_lowest(ids: u64) -> u64
    ensures { ids_of result ≡ drop 1 (ids_of ids) }
{
    match lowest(ids) {
        Some(id) => above(ids, id),
        None => 0,
    }
}

/// The ids with this one added.
pub fn with(ids: u64, id: u16) -> u64
    requires { id < 64 }
    ensures same { has_id result id ≡ true }
    // Every other id is in the set exactly if it was before.
    ensures others { (i : ℕ) → i < 64 → i ≢ id → has_id result i ≡ has_id ids i }
{
    ids | 1 << id
}
