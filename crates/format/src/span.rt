// Bounds that stand in slices. Two bounds, or two ranges, may stand in different ones.
ghost use Rattle.std.specs.Prelude.{◌≡◌};
ghost use Rattle.comparable_range.specs.Range.{of, cmp_bound, non_empty, start_side, end_side, overlap, intersect_sides, union_sides};
ghost use Rattle.comparable_range.specs.Range as range;
ghost use Rattle.format.specs.Range.{BoundInside, bound_in, range_in};
ghost use Rattle.format.specs.Joint as joint;
ghost use Rattle.format.specs.Span.{SuppliedInside, supplied_bound, bound_key, JointInside, joint_in, MetFound, JoinedInside, joint_of, start_key_of, end_key_of, key_of};

use crate::range::{BoundSpan, key_of};
use comparable_range::{Side, of};
use std::cmp::Ordering;

// A range whose bounds stand in one slice.
#[derive(Clone, Copy)]
pub struct RangeSpan {
    pub start: BoundSpan,
    pub end: BoundSpan,
}

// A bound, and which of two slices it stands in.
#[derive(Clone, Copy)]
pub struct Supplied {
    pub side: Side,
    pub bound: BoundSpan,
}

// A range of which each bound stands in one of two slices.
#[derive(Clone, Copy)]
pub struct JointSpan {
    pub start: Supplied,
    pub end: Supplied,
}

// What a call answers: a range of which each bound stands in one of the two lent slices, that there is none, or the number of
// the stop.
#[derive(Clone, Copy)]
pub enum Joined {
    Range(Supplied, Supplied),
    Nothing,
    Stop(u8),
}

// The order of two bounds, both starts or both ends.
pub fn compare(a: &[u8], x: BoundSpan, b: &[u8], y: BoundSpan, start: bool) -> Ordering
    requires fact_1 { BoundInside a.now x }
    requires fact_2 { BoundInside b.now y }
    ensures { result ≡ cmp_bound start (bound_in a.now x) (bound_in b.now y) }
{
    comparable_range::cmp_bound(x.kind, key_of(a, x), y.kind, key_of(b, y), start)
}

// Whether the range from one bound to another passes `non_empty`.
pub fn passes(a: &[u8], x: BoundSpan, b: &[u8], y: BoundSpan) -> bool
    requires fact_1 { BoundInside a.now x }
    requires fact_2 { BoundInside b.now y }
    ensures { result ≡ non_empty (record { start = bound_in a.now x; end = bound_in b.now y }) }
{
    comparable_range::non_empty(x.kind, key_of(a, x), y.kind, key_of(b, y))
}

// The greater of two starts; of equal ones, the second.
pub fn greater_start(a: &[u8], x: BoundSpan, b: &[u8], y: BoundSpan) -> Side
    requires fact_1 { BoundInside a.now x }
    requires fact_2 { BoundInside b.now y }
    ensures { result ≡ start_side (bound_in a.now x) (bound_in b.now y) }
{
    comparable_range::start_side(x.kind, key_of(a, x), y.kind, key_of(b, y))
}

// The lesser of two ends; of equal ones, the first.
pub fn lesser_end(a: &[u8], x: BoundSpan, b: &[u8], y: BoundSpan) -> Side
    requires fact_1 { BoundInside a.now x }
    requires fact_2 { BoundInside b.now y }
    ensures { result ≡ end_side (bound_in a.now x) (bound_in b.now y) }
{
    comparable_range::end_side(x.kind, key_of(a, x), y.kind, key_of(b, y))
}

// Which of two ranges supplies the start of their intersection, and which the end.
pub fn intersect<'a>(a: &'a [u8], r: RangeSpan, b: &'a [u8], q: RangeSpan) -> Option<(Side, Side)>
    requires fact_1 { BoundInside a.now r.start }
    requires fact_2 { BoundInside a.now r.end }
    requires fact_3 { BoundInside b.now q.start }
    requires fact_4 { BoundInside b.now q.end }
    ensures { result ≡ intersect_sides (range_in a.now r.start r.end) (range_in b.now q.start q.end) }
{
    comparable_range::intersect(
        r.start.kind,
        key_of(a, r.start),
        r.end.kind,
        key_of(a, r.end),
        q.start.kind,
        key_of(b, q.start),
        q.end.kind,
        key_of(b, q.end),
    )
}

// The same of their union.
pub fn union<'a>(a: &'a [u8], r: RangeSpan, b: &'a [u8], q: RangeSpan) -> Option<(Side, Side)>
    requires fact_1 { BoundInside a.now r.start }
    requires fact_2 { BoundInside a.now r.end }
    requires fact_3 { BoundInside b.now q.start }
    requires fact_4 { BoundInside b.now q.end }
    ensures { result ≡ union_sides (range_in a.now r.start r.end) (range_in b.now q.start q.end) }
{
    comparable_range::union(
        r.start.kind,
        key_of(a, r.start),
        r.end.kind,
        key_of(a, r.end),
        q.start.kind,
        key_of(b, q.start),
        q.end.kind,
        key_of(b, q.end),
    )
}

// Whether two ranges have an intersection.
#[tactic(auto, using(crate::proofs::Spans::meet_exits))]
pub fn meets<'a>(a: &'a [u8], r: RangeSpan, b: &'a [u8], q: RangeSpan) -> bool
    requires fact_1 { BoundInside a.now r.start }
    requires fact_2 { BoundInside a.now r.end }
    requires fact_3 { BoundInside b.now q.start }
    requires fact_4 { BoundInside b.now q.end }
    ensures { result ≡ non_empty (overlap (range_in a.now r.start r.end) (range_in b.now q.start q.end)) }
{
    intersect(a, r, b, q).is_some()
}

// Whether a range holds a key.
pub fn holds(s: &[u8], r: RangeSpan, key: &[u8]) -> bool
    requires fact_1 { BoundInside s.now r.start }
    requires fact_2 { BoundInside s.now r.end }
    ensures { result ≡ range.holds (range_in s.now r.start r.end) key.now }
{
    comparable_range::contains(
        r.start.kind,
        key_of(s, r.start),
        r.end.kind,
        key_of(s, r.end),
        key,
    )
}

// Of two bounds, the one of a side.
pub fn bound_of(side: Side, x: BoundSpan, y: BoundSpan) -> BoundSpan
    ensures { result ≡ of side x y }
{
    of(side, x, y)
}

// Of two slices, the one of a side.
pub fn slice_of<'a>(side: Side, a: &'a [u8], b: &'a [u8]) -> &'a [u8]
    ensures { result.now ≡ of side a.now b.now }
{
    of(side, a, b)
}

// The key of a bound, as a part of the slice that it stands in; an empty part if it has none.
pub fn bound_key(s: &[u8], b: BoundSpan) -> &[u8]
    requires { BoundInside s.now b }
    ensures { result.now ≡ bound_key (bound_in s.now b) }
{
    if comparable_range::keyed(b.kind) {
        key_of(s, b)
    } else {
        &s[..0]
    }
}

// The same of a bound that stands in one of two slices.
pub fn supplied_key<'a>(a: &'a [u8], b: &'a [u8], x: Supplied) -> &'a [u8]
    requires { SuppliedInside a.now b.now x }
    ensures { result.now ≡ bound_key (supplied_bound a.now b.now x) }
{
    bound_key(of(x.side, a, b), x.bound)
}

// The key of an intersection's start, as a part of the slice that supplied it; an empty part where there is none.
pub fn start_part<'a>(a: &'a [u8], b: &'a [u8], joined: Joined) -> &'a [u8]
    requires { JoinedInside a.now b.now joined }
    ensures { result.now ≡ key_of (start_key_of (joint_of a.now b.now joined)) }
{
    match joined {
        Joined::Stop(_) => &a[..0],
        Joined::Nothing => &a[..0],
        Joined::Range(start, _) => supplied_key(a, b, start),
    }
}

// The key of its end.
pub fn end_part<'a>(a: &'a [u8], b: &'a [u8], joined: Joined) -> &'a [u8]
    requires { JoinedInside a.now b.now joined }
    ensures { result.now ≡ key_of (end_key_of (joint_of a.now b.now joined)) }
{
    match joined {
        Joined::Stop(_) => &a[..0],
        Joined::Nothing => &a[..0],
        Joined::Range(_, end) => supplied_key(a, b, end),
    }
}

// Which of two ranges whose bounds stand in two slices supplies the start of their intersection, and which the end.
fn joint_sides<'a>(a: &'a [u8], b: &'a [u8], x: JointSpan, y: JointSpan) -> Option<(Side, Side)>
    requires fact_1 { JointInside a.now b.now x }
    requires fact_2 { JointInside a.now b.now y }
    ensures { result ≡ intersect_sides (joint.range (joint_in a.now b.now x)) (joint.range (joint_in a.now b.now y)) }
{
    comparable_range::intersect(
        x.start.bound.kind,
        supplied_key(a, b, x.start),
        x.end.bound.kind,
        supplied_key(a, b, x.end),
        y.start.bound.kind,
        supplied_key(a, b, y.start),
        y.end.bound.kind,
        supplied_key(a, b, y.end),
    )
}

// The intersection of two such ranges: each bound keeps its supplier.
#[tactic(auto, unfolding(crate::specs::Joint::intersect))]
pub fn intersect_joint<'a>(
    a: &'a [u8],
    b: &'a [u8],
    x: JointSpan,
    y: JointSpan,
) -> Option<JointSpan>
    requires fact_1 { JointInside a.now b.now x }
    requires fact_2 { JointInside a.now b.now y }
    ensures { MetFound a.now b.now (joint.intersect (joint_in a.now b.now x) (joint_in a.now b.now y)) result }
{
    let (s, e) = joint_sides(a, b, x, y)?;
    Some(JointSpan {
        start: of(s, x.start, y.start),
        end: of(e, x.end, y.end),
    })
}
