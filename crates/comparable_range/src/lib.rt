// Bounds and ranges of keys, as comparable_range.rs has them. A bound is a kind and a key; of an unbounded one the key is
// not looked at.
#![tactic(auto)]

ghost use Rattle.std.specs.Prelude.{◌≡◌};
ghost use Rattle.comparable_range.specs.Range.{bound_of, range_of, of, cmp_bound, non_empty, holds, start_holds, end_holds};
ghost use Rattle.comparable_range.specs.Range.{are_adjacent, cmp_range, start_side, end_side, intersect_sides};
ghost use Rattle.comparable_range.specs.Range.{union_sides, unite_sides, exchanged, other};
ghost use Rattle.comparable_range.specs.declared.Side.TheVariants.{First, Second};
ghost use Rattle.key.specs.Order.{at_most};
ghost use Rattle.base.specs.Pick.{pick};
ghost use Rattle.comparable_range.specs.Factors.{is_keyed, tie, key_order, passes};

use std::cmp::Ordering;

#[derive(Clone, Copy)]
pub enum Kind {
    Unbounded,
    Included,
    Excluded,
}

// One of two ranges.
#[derive(Clone, Copy)]
pub enum Side {
    First,
    Second,
}

// Whether a kind has a key.
pub fn keyed(k: Kind) -> bool
    ensures { result ≡ is_keyed k }
{
    matches!(k, Kind::Included | Kind::Excluded)
}

// The order of two bounds by their kinds alone: at equal keys, or where one has none.
fn tied(ka: Kind, kb: Kind, start: bool) -> Ordering
    ensures { result ≡ tie start ka kb }
{
    match (ka, kb) {
        (Kind::Unbounded, Kind::Unbounded)
        | (Kind::Included, Kind::Included)
        | (Kind::Excluded, Kind::Excluded) => Ordering::Equal,
        (Kind::Unbounded, _) | (Kind::Included, Kind::Excluded) => {
            if start {
                Ordering::Less
            } else {
                Ordering::Greater
            }
        }
        _ => if start {
            Ordering::Greater
        } else {
            Ordering::Less
        },
    }
}

// The order of two bounds' keys: equal where one has none.
#[tactic(auto, unfolding(crate::specs::Factors::key_order))]
fn key_order(ka: Kind, a: &[u8], kb: Kind, b: &[u8]) -> Ordering
    ensures { result ≡ key_order ka a.now kb b.now }
{
    if keyed(ka) && keyed(kb) {
        key::cmp(a, b)
    } else {
        Ordering::Equal
    }
}

// The order of two bounds, both starts or both ends.
#[tactic(auto, using(crate::proofs::Factored::bounds_compared))]
pub fn cmp_bound(ka: Kind, a: &[u8], kb: Kind, b: &[u8], start: bool) -> Ordering
    ensures { result ≡ cmp_bound start (bound_of ka a.now) (bound_of kb b.now) }
{
    key_order(ka, a, kb, b).then_with(|| tied(ka, kb, start))
}

// Whether a range passes, at the order of its keys.
fn passes_at(ka: Kind, kb: Kind, o: Ordering) -> bool
    ensures { result ≡ passes ka kb o }
{
    match o {
        Ordering::Less => true,
        Ordering::Greater => false,
        Ordering::Equal => matches!(
            (ka, kb),
            (Kind::Unbounded, _) | (_, Kind::Unbounded) | (Kind::Included, Kind::Included)
        ),
    }
}

// The Rust's rule: with two keys, start < end, or equality if both are included.
#[tactic(auto, using(crate::proofs::Factored::bounds_tested))]
pub fn non_empty(ks: Kind, s: &[u8], ke: Kind, e: &[u8]) -> bool
    ensures { result ≡ non_empty (range_of ks s.now ke e.now) }
{
    passes_at(ks, ke, key_order(ks, s, ke, e))
}

// Whether a key lies at or after a start.
#[tactic(auto, unfolding(crate::specs::Range::start_holds))]
fn start_holds(k: Kind, s: &[u8], key: &[u8]) -> bool
    ensures { result ≡ start_holds (bound_of k s.now) key.now }
{
    match k {
        Kind::Unbounded => true,
        Kind::Included => key::cmp(s, key).is_le(),
        Kind::Excluded => key::cmp(s, key).is_lt(),
    }
}

// Whether a key lies at or before an end.
#[tactic(auto, unfolding(crate::specs::Range::end_holds))]
fn end_holds(k: Kind, e: &[u8], key: &[u8]) -> bool
    ensures { result ≡ end_holds (bound_of k e.now) key.now }
{
    match k {
        Kind::Unbounded => true,
        Kind::Included => key::cmp(key, e).is_le(),
        Kind::Excluded => key::cmp(key, e).is_lt(),
    }
}

// Whether a range holds a key.
#[tactic(auto, unfolding(crate::specs::Range::holds))]
pub fn contains(ks: Kind, s: &[u8], ke: Kind, e: &[u8], key: &[u8]) -> bool
    ensures { result ≡ holds (range_of ks s.now ke e.now) key.now }
{
    start_holds(ks, s, key) && end_holds(ke, e, key)
}

// Of two values, the one of a side.
pub fn of<T: Copy>(side: Side, a: T, b: T) -> T
    ensures { result ≡ of side a b }
{
    match side {
        Side::First => a,
        Side::Second => b,
    }
}

// The greater of two bounds, both starts or both ends; of equal ones, the second.
fn greater(ka: Kind, a: &[u8], kb: Kind, b: &[u8], start: bool) -> Side
    ensures { result ≡ pick (at_most (cmp_bound start (bound_of ka a.now) (bound_of kb b.now))) Second First }
{
    if cmp_bound(ka, a, kb, b, start).is_le() {
        Side::Second
    } else {
        Side::First
    }
}

// The greater of two starts; of equal ones, the second.
#[tactic(auto, unfolding(crate::specs::Range::start_side))]
pub fn start_side(ka: Kind, a: &[u8], kb: Kind, b: &[u8]) -> Side
    ensures { result ≡ start_side (bound_of ka a.now) (bound_of kb b.now) }
{
    greater(ka, a, kb, b, true)
}

// The lesser of two ends; of equal ones, the first.
#[tactic(auto, unfolding(crate::specs::Range::end_side))]
pub fn end_side(ka: Kind, a: &[u8], kb: Kind, b: &[u8]) -> Side
    ensures { result ≡ end_side (bound_of ka a.now) (bound_of kb b.now) }
{
    if cmp_bound(ka, a, kb, b, false).is_le() {
        Side::First
    } else {
        Side::Second
    }
}

// The intersection of two ranges: each is its start's kind and key, then its end's.
#[tactic(auto, using(crate::proofs::Factored::pair_exits))]
pub fn intersect<'a>(
    ks: Kind,
    s: &'a [u8],
    ke: Kind,
    e: &'a [u8],
    js: Kind,
    t: &'a [u8],
    je: Kind,
    f: &'a [u8],
) -> Option<(Side, Side)>
    ensures { result ≡ intersect_sides (range_of ks s.now ke e.now) (range_of js t.now je f.now) }
{
    let start = start_side(ks, s, js, t);
    let end = end_side(ke, e, je, f);
    if non_empty(
        of(start, ks, js),
        of(start, s, t),
        of(end, ke, je),
        of(end, e, f),
    ) {
        Some((start, end))
    } else {
        None
    }
}

// Whether an end and a start stand at one key that just one of them includes.
#[tactic(auto, unfolding(crate::specs::Range::are_adjacent))]
fn are_adjacent(ke: Kind, e: &[u8], ks: Kind, s: &[u8]) -> bool
    ensures { result ≡ are_adjacent (bound_of ke e.now) (bound_of ks s.now) }
{
    matches!(
        (ke, ks),
        (Kind::Included, Kind::Excluded) | (Kind::Excluded, Kind::Included)
    ) && key::cmp(e, s).is_eq()
}

// The order of two ranges: by their starts, then by their ends.
#[tactic(auto, unfolding(crate::specs::Range::cmp_range))]
fn cmp_range(
    ks: Kind,
    s: &[u8],
    ke: Kind,
    e: &[u8],
    js: Kind,
    t: &[u8],
    je: Kind,
    f: &[u8],
) -> Ordering
    ensures { result ≡ cmp_range (range_of ks s.now ke e.now) (range_of js t.now je f.now) }
{
    cmp_bound(ks, s, js, t, true).then(cmp_bound(ke, e, je, f, false))
}

// The union of two ranges of which the first is the lesser, or equal.
#[tactic(auto, unfolding(crate::specs::Range::unite_sides, crate::specs::Range::greater_end_side))]
fn unite<'a>(
    ks: Kind,
    s: &'a [u8],
    ke: Kind,
    e: &'a [u8],
    js: Kind,
    t: &'a [u8],
    je: Kind,
    f: &'a [u8],
) -> Option<(Side, Side)>
    ensures { result ≡ unite_sides (range_of ks s.now ke e.now) (range_of js t.now je f.now) }
{
    if intersect(ks, s, ke, e, js, t, je, f).is_some() || are_adjacent(ke, e, js, t) {
        Some((Side::First, greater(ke, e, je, f, false)))
    } else {
        None
    }
}

fn other_side(side: Side) -> Side
    ensures { result ≡ other side }
{
    match side {
        Side::First => Side::Second,
        Side::Second => Side::First,
    }
}

// The sides with the two ranges exchanged.
fn exchange(sides: Option<(Side, Side)>) -> Option<(Side, Side)>
    ensures { result ≡ exchanged sides }
{
    let (start, end) = sides?;
    Some((other_side(start), other_side(end)))
}

// The union of two ranges, where the Rust has one.
#[tactic(auto, unfolding(crate::specs::Range::union_sides))]
pub fn union<'a>(
    ks: Kind,
    s: &'a [u8],
    ke: Kind,
    e: &'a [u8],
    js: Kind,
    t: &'a [u8],
    je: Kind,
    f: &'a [u8],
) -> Option<(Side, Side)>
    ensures { result ≡ union_sides (range_of ks s.now ke e.now) (range_of js t.now je f.now) }
{
    if cmp_range(ks, s, ke, e, js, t, je, f).is_lt() {
        unite(ks, s, ke, e, js, t, je, f)
    } else {
        exchange(unite(js, t, je, f, ks, s, ke, e))
    }
}
