// The parts of a range before and after an interval. Of a part's bounds, those of the first side stand in the range's slice,
// and those of the second in the interval's.
ghost use Rattle.comparable_range.specs.Range.{intersect};
ghost use Rattle.format.specs.Range.{BoundInside, bound_in, range_in};
ghost use Rattle.incremental_progress.specs.Intervals.{part_before, part_from};
ghost use Rattle.incremental_progress.specs.Parts.{key_of};
ghost use Rattle.subtract_from.specs.Found.{PartFound};

use comparable_range::{Kind, keyed};
use format::span::{JointSpan, RangeSpan, Supplied, bound_of};
use format::{BoundSpan, span};

// What two ranges have in common.
fn cut<'a>(a: &'a [u8], r: RangeSpan, b: &'a [u8], q: RangeSpan) -> Option<JointSpan>
    requires fact_1 { BoundInside a.now r.start }
    requires fact_2 { BoundInside a.now r.end }
    requires fact_3 { BoundInside b.now q.start }
    requires fact_4 { BoundInside b.now q.end }
    ensures { PartFound a.now b.now (intersect (range_in a.now r.start r.end) (range_in b.now q.start q.end)) result }
{
    let (s, e) = span::intersect(a, r, b, q)?;
    Some(JointSpan {
        start: Supplied {
            side: s,
            bound: bound_of(s, r.start, q.start),
        },
        end: Supplied {
            side: e,
            bound: bound_of(e, r.end, q.end),
        },
    })
}

// The range's keys before the interval's start.
pub fn part_before<'a>(
    range: &'a [u8],
    r: RangeSpan,
    interval: &'a [u8],
    start: BoundSpan,
) -> Option<JointSpan>
    requires fact_1 { BoundInside range.now r.start }
    requires fact_2 { BoundInside range.now r.end }
    requires fact_3 { BoundInside interval.now start }
    ensures { PartFound range.now interval.now (part_before (key_of (bound_in interval.now start)) (range_in range.now r.start r.end)) result }
{
    if !keyed(start.kind) {
        return None;
    }
    let below = RangeSpan {
        start: BoundSpan {
            kind: Kind::Unbounded,
            at: 0,
            len: 0,
        },
        end: BoundSpan {
            kind: Kind::Excluded,
            ..start
        },
    };
    cut(range, r, interval, below)
}

// The range's keys from the interval's end on.
pub fn part_from<'a>(
    range: &'a [u8],
    r: RangeSpan,
    interval: &'a [u8],
    end: BoundSpan,
) -> Option<JointSpan>
    requires fact_1 { BoundInside range.now r.start }
    requires fact_2 { BoundInside range.now r.end }
    requires fact_3 { BoundInside interval.now end }
    ensures { PartFound range.now interval.now (part_from (key_of (bound_in interval.now end)) (range_in range.now r.start r.end)) result }
{
    if !keyed(end.kind) {
        return None;
    }
    let after = RangeSpan {
        start: BoundSpan {
            kind: Kind::Included,
            ..end
        },
        end: BoundSpan {
            kind: Kind::Unbounded,
            at: 0,
            len: 0,
        },
    };
    cut(range, r, interval, after)
}
