// The two numbers that every lookup of a key is reckoned from.
ghost use Rattle.std.specs.Prelude.{◌≡◌, ◌<◌, ◌+◌, ◌^◌};
ghost use Rattle.base.specs.Outcome.{answer};
ghost use Rattle.partitioned_keyspace.specs.Calls.{found_of};
ghost use Rattle.partitioned_keyspace.specs.KeyPoints.{grown_by, led_order, KnownBelow, count_for, first_of, or_after_of, last_of, start_of, up_to_excluded, end_of};

use crate::{Found, Test};
use comparable_range::Kind;
use std::cmp::Ordering;

// How many first keys, from the first on, stand below a key, and how many at or below it.
#[derive(Clone, Copy)]
pub struct KeyPoint {
    pub below: usize,
    pub at_most: usize,
}

#[derive(Clone, Copy)]
pub enum Pointed {
    At(KeyPoint),
    Stop(u8),
}

// With one more first key, by its order to the key. One below it counts only if none before was equal.
pub fn grown(p: KeyPoint, seen: usize, o: Ordering) -> KeyPoint
    requires { seen + 1 < 2 ^ 64 }
    ensures { result ≡ grown_by p seen o }
{
    match o {
        Ordering::Less => KeyPoint {
            below: if p.below < seen { p.below } else { seen + 1 },
            at_most: seen + 1,
        },
        Ordering::Equal => KeyPoint {
            at_most: seen + 1,
            ..p
        },
        Ordering::Greater => p,
    }
}

// The order of one more first key to a key. Once a first key was above it, no more are compared: none of them counts. Nor is
// one compared that is known to be below it.
pub fn led(p: KeyPoint, seen: usize, first: &[u8], key: &[u8], below: bool) -> Ordering
    requires { KnownBelow below first.now key.now }
    ensures { result ≡ led_order p seen first.now key.now }
{
    if p.at_most < seen {
        Ordering::Greater
    } else if below {
        Ordering::Less
    } else {
        key::cmp(first, key)
    }
}

// `partition_point`.
pub fn count_for(test: Test, p: KeyPoint) -> usize
    ensures { result ≡ count_for test p }
{
    match test {
        Test::Below => p.below,
        Test::AtOrBelow => p.at_most,
    }
}

// `first_partition_including_key`: if none is below the key, one at or below it equals it.
pub fn first_of(p: KeyPoint) -> Found
    ensures { found_of result ≡ answer (first_of p) }
{
    if 0 < p.below {
        Found::At(p.below - 1)
    } else if 0 < p.at_most {
        Found::At(0)
    } else {
        Found::Nothing
    }
}

// `first_partition_including_or_after_key`.
pub fn or_after(p: KeyPoint) -> usize
    ensures { result ≡ or_after_of p }
{
    p.below.saturating_sub(1)
}

// `last_partition_including_key`.
pub fn last_of(p: KeyPoint) -> Found
    ensures { found_of result ≡ answer (last_of p) }
{
    if 0 < p.at_most {
        Found::At(p.at_most - 1)
    } else {
        Found::Nothing
    }
}

// Where a covering starts.
pub fn start_place(kind: Kind, p: KeyPoint) -> usize
    ensures { result ≡ start_of kind p }
{
    match kind {
        Kind::Unbounded => 0,
        Kind::Included | Kind::Excluded => or_after(p),
    }
}

// The end of a covering without an excluded end key: a last partition that starts with it is left out.
fn up_to_excluded(p: KeyPoint) -> usize
    ensures { result ≡ up_to_excluded p }
{
    if p.below < p.at_most {
        p.at_most - 1
    } else {
        p.at_most
    }
}

// Where a covering ends that starts at a place.
pub fn end_place(kind: Kind, start: usize, partitions: usize, p: KeyPoint) -> usize
    ensures { result ≡ end_of kind start partitions p }
{
    match kind {
        Kind::Unbounded => partitions,
        Kind::Included | Kind::Excluded if p.at_most == 0 => start,
        Kind::Included => p.at_most,
        Kind::Excluded => up_to_excluded(p),
    }
}
