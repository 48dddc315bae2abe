// The public calls. None has a `requires`: each takes any bytes, refuses by the numbers of document 01, and says what it
// answers for each input as an equation with its definition in specs/. Ranges are range images; keys and prefixes are
// lent as they are.
#![tactic(auto)]

mod commits;
mod images;
mod lookups;
mod plans;
mod progress;
mod sizes;

ghost use Rattle.std.specs.Prelude.{◌≡◌, length};
ghost use Rattle.base.specs.Outcome.{reported, lent, test_of};
ghost use Rattle.format.specs.Span.{JointFound};
ghost use Rattle.bilqarush.specs.Calls.{compare_outcome, cmp_bound_outcome, non_empty_outcome, contains_outcome, as_point_outcome};
ghost use Rattle.bilqarush.specs.Calls.{intersect_outcome, intersect_start_key_outcome, intersect_end_key_outcome, union_outcome};
ghost use Rattle.bilqarush.specs.Calls.{from_prefix_outcome, from_prefix_and_subrange_outcome};
ghost use Rattle.bilqarush.specs.Answers.{order_of, BothFound, joined_by, point_at, stop_number, PartFound};

pub use base::Tested;
use base::Written;
pub use commits::commit;
use comparable_range::{Kind, Side};
pub use format::span::Joined;
use format::span::{RangeSpan, Supplied};
use format::{Given, RangeRead, span};
pub use images::{Checked, ViewRange, check_image, compacted_effective_range, list};
pub use lookups::{
    Counted, Covered, Found, Test, calculate_view_range, compacted_intersection,
    first_partition_including_key, first_partition_including_or_after_key, intersects_range,
    last_partition_including_key, overlaps_range, partition_point, partitions_covering_range,
    table_idx_covering_range,
};
pub use plans::{plan_subcompaction_ranges, sample_anchors, select_boundaries};
pub use progress::{from_compaction, subtract_from};
pub use sizes::{
    Estimated, Shown, VisibleFraction, estimate_run_visible_size, estimate_visible_size,
    visible_fraction,
};

// A comparison's answer: -1, 0 or 1, or the number of a stop.
#[derive(Clone, Copy)]
pub enum Compared {
    Order(i8),
    Stop(u8),
}

// A point: the place of its key in the lent slice and its length.
#[derive(Clone, Copy)]
pub enum Point {
    At(usize, usize),
    Nothing,
    Stop(u8),
}

// The order of two keys.
#[tactic(auto, using(crate::proofs::Checks::compare_exits))]
pub fn compare(a: &[u8], b: &[u8]) -> Compared
    ensures { order_of result ≡ compare_outcome a.now b.now }
{
    if 1024 < a.len() {
        return Compared::Stop(3);
    }
    if 1024 < b.len() {
        return Compared::Stop(3);
    }
    Compared::Order(key::number(key::cmp(a, b)))
}

// The order of two bounds, both starts or both ends.
#[tactic(auto, using(crate::proofs::Checks::bound_exits))]
pub fn cmp_bound(a_kind: u8, a: &[u8], b_kind: u8, b: &[u8], start: bool) -> Compared
    ensures { order_of result ≡ cmp_bound_outcome a_kind a.now b_kind b.now start }
{
    match format::bound_given(a_kind, a) {
        Given::Stop(n) => Compared::Stop(n),
        Given::Bound(ka) => match format::bound_given(b_kind, b) {
            Given::Stop(n) => Compared::Stop(n),
            Given::Bound(kb) => Compared::Order(key::number(comparable_range::cmp_bound(
                ka, a, kb, b, start,
            ))),
        },
    }
}

// Whether a range passes the Rust's test.
#[tactic(auto, using(crate::proofs::Checks::range_exits))]
pub fn non_empty(range: &[u8]) -> Tested
    ensures { test_of result ≡ non_empty_outcome range.now }
{
    match format::range_whole(range) {
        RangeRead::Stop(n) => Tested::Stop(n),
        RangeRead::At {
            start,
            end,
            next: _,
        } => Tested::Is(span::passes(range, start, range, end)),
    }
}

// Whether a range holds a key.
#[tactic(auto, using(crate::proofs::Checks::range_exits))]
pub fn contains(range: &[u8], key: &[u8]) -> Tested
    ensures { test_of result ≡ contains_outcome range.now key.now }
{
    match format::range_whole(range) {
        RangeRead::Stop(n) => Tested::Stop(n),
        RangeRead::At {
            start,
            end,
            next: _,
        } => {
            if 1024 < key.len() {
                return Tested::Stop(3);
            }
            if span::passes(range, start, range, end) {
                return Tested::Is(span::holds(range, RangeSpan { start, end }, key));
            }
            Tested::Stop(4)
        }
    }
}

// Where the key of an included start stands in a range: behind the head byte and the 2 bytes of its length.
const START_KEY: usize = 3;

// The key of a range that is one point.
#[tactic(auto, using(crate::proofs::Checks::range_exits))]
pub fn as_point(range: &[u8]) -> Point
    ensures { result ≡ point_at (as_point_outcome range.now) }
{
    match format::range_whole(range) {
        RangeRead::Stop(n) => Point::Stop(n),
        RangeRead::At {
            start,
            end,
            next: _,
        } => {
            if span::passes(range, start, range, end) {
                if bytes_range::span::is_point(range, start, end) {
                    return Point::At(START_KEY, start.len);
                }
                return Point::Nothing;
            }
            Point::Stop(4)
        }
    }
}

// Two ranges, each in its slice.
#[derive(Clone, Copy)]
pub enum Both {
    Ranges(RangeSpan, RangeSpan),
    Stop(u8),
}

#[tactic(auto, using(crate::proofs::Pairs::pair_exits))]
fn ranges_given(a: &[u8], b: &[u8]) -> Both
    ensures { BothFound a.now b.now result }
{
    match format::range_whole(a) {
        RangeRead::Stop(n) => Both::Stop(n),
        RangeRead::At {
            start: s,
            end: e,
            next: _,
        } => match format::range_whole(b) {
            RangeRead::Stop(n) => Both::Stop(n),
            RangeRead::At {
                start: t,
                end: f,
                next: _,
            } => {
                if span::passes(a, s, a, e) {
                    if span::passes(b, t, b, f) {
                        return Both::Ranges(
                            RangeSpan { start: s, end: e },
                            RangeSpan { start: t, end: f },
                        );
                    }
                    return Both::Stop(4);
                }
                Both::Stop(4)
            }
        },
    }
}

// The range whose bounds the sides supply.
#[tactic(auto, using(crate::proofs::Pairs::joined_exits))]
fn from_sides(sides: Option<(Side, Side)>, r: RangeSpan, q: RangeSpan) -> Joined
    ensures { result ≡ joined_by sides r q }
{
    match sides {
        None => Joined::Nothing,
        Some((x, y)) => Joined::Range(
            Supplied {
                side: x,
                bound: span::bound_of(x, r.start, q.start),
            },
            Supplied {
                side: y,
                bound: span::bound_of(y, r.end, q.end),
            },
        ),
    }
}

// The intersection of two ranges. Of equal bounds, the second range's start and the first's end are answered.
#[tactic(auto, using(crate::proofs::Pairs::join_exits))]
pub fn intersect<'a>(a: &'a [u8], b: &'a [u8]) -> Joined
    ensures { JointFound a.now b.now (intersect_outcome a.now b.now) result }
{
    match ranges_given(a, b) {
        Both::Stop(n) => Joined::Stop(n),
        Both::Ranges(r, q) => from_sides(span::intersect(a, r, b, q), r, q),
    }
}

// The number of the stop that an intersection answered, or 0.
fn stop_number(joined: Joined) -> u8
    ensures { result ≡ stop_number joined }
{
    match joined {
        Joined::Stop(n) => n,
        Joined::Nothing => 0,
        Joined::Range(_, _) => 0,
    }
}

// The number of the stop, or 0, and a key as a part of the slice that supplied it. The part is empty after a stop, where
// there is no intersection, and for an unbounded bound.
#[derive(Clone, Copy)]
pub struct KeyPart<'a> {
    pub stop: u8,
    pub key: &'a [u8],
}

// The key of the intersection's start.
pub fn intersect_start_key<'a>(a: &'a [u8], b: &'a [u8]) -> KeyPart<'a>
    ensures { PartFound (intersect_start_key_outcome a.now b.now) result }
{
    let joined = intersect(a, b);
    let stop = stop_number(joined);
    let key = span::start_part(a, b, joined);
    KeyPart { stop, key }
}

// The key of its end.
pub fn intersect_end_key<'a>(a: &'a [u8], b: &'a [u8]) -> KeyPart<'a>
    ensures { PartFound (intersect_end_key_outcome a.now b.now) result }
{
    let joined = intersect(a, b);
    let stop = stop_number(joined);
    let key = span::end_part(a, b, joined);
    KeyPart { stop, key }
}

// The union of two ranges, where the Rust has one.
#[tactic(auto, using(crate::proofs::Pairs::join_exits))]
pub fn union<'a>(a: &'a [u8], b: &'a [u8]) -> Joined
    ensures { JointFound a.now b.now (union_outcome a.now b.now) result }
{
    match ranges_given(a, b) {
        Both::Stop(n) => Joined::Stop(n),
        Both::Ranges(r, q) => from_sides(span::union(a, r, b, q), r, q),
    }
}

// The range of the keys that begin with a prefix, written to the front of a lent buffer.
pub fn from_prefix(prefix: &[u8], out: &mut [u8]) -> Written
    ensures value { result ≡ reported (from_prefix_outcome prefix.now (length out.old)) }
    ensures out_after { out.new ≡ lent out.old (from_prefix_outcome prefix.now (length out.old)) }
{
    if 1024 < prefix.len() {
        return Written::Stop(3);
    }
    bytes_range::from_prefix_and_subrange(
        prefix,
        Kind::Unbounded,
        &prefix[..0],
        Kind::Unbounded,
        &prefix[..0],
        out,
    )
}

// The range of the keys that are a prefix and then a key of a subrange, written to the front of a lent buffer.
pub fn from_prefix_and_subrange(prefix: &[u8], subrange: &[u8], out: &mut [u8]) -> Written
    ensures value { result ≡ reported (from_prefix_and_subrange_outcome prefix.now subrange.now (length out.old)) }
    ensures out_after { out.new ≡ lent out.old (from_prefix_and_subrange_outcome prefix.now subrange.now (length out.old)) }
{
    if 1024 < prefix.len() {
        return Written::Stop(3);
    }
    match format::range_whole(subrange) {
        RangeRead::Stop(n) => Written::Stop(n),
        RangeRead::At {
            start,
            end,
            next: _,
        } => bytes_range::span::join(prefix, subrange, start, end, out),
    }
}
