// The part of a table that a view shows.
ghost use Rattle.std.specs.Prelude.{◌≡◌, T};
ghost use Rattle.std.specs.Float.Ieee.{le};
ghost use Rattle.format.specs.Range.{BoundInside, range_in};
ghost use Rattle.visible_size.specs.Steps.{same_range, lengths_fraction, ranges_fraction, one64};
ghost use Rattle.visible_size.specs.Steps as steps;
ghost use Rattle.visible_size.specs.Numbers.{FractionFound};

use crate::VisibleFraction;
use crate::keys::{common_prefix_len, range_len};
use format::span::{RangeSpan, bound_key};

// The least fraction that is answered.
const MIN_VISIBLE_FRACTION: f64 = 0.000001;

// Not `f64::max`: of two equal floats that may answer either, and the promise below names one.
fn maximum(x: f64, y: f64) -> f64
    ensures { result ≡ steps.maximum x y }
{
    if y < x { x } else { y }
}

// Of the visible length and the physical one.
fn lengths_fraction(visible: f64, physical: f64) -> VisibleFraction
    requires fact_1 { T (le visible one64) }
    requires fact_2 { T (le physical one64) }
    ensures { FractionFound (lengths_fraction visible physical) result }
{
    if visible == 0.0 {
        return VisibleFraction::Whole;
    }
    let share = visible / maximum(physical, f64::EPSILON);
    VisibleFraction::Part(share.clamp(MIN_VISIBLE_FRACTION, 1.0))
}

fn same_range(s: &[u8], r: RangeSpan, q: RangeSpan) -> bool
    requires fact_1 { BoundInside s.now r.start }
    requires fact_2 { BoundInside s.now r.end }
    requires fact_3 { BoundInside s.now q.start }
    requires fact_4 { BoundInside s.now q.end }
    ensures { result ≡ same_range (range_in s.now r.start r.end) (range_in s.now q.start q.end) }
{
    format::span::compare(s, r.start, s, q.start, true).is_eq()
        && format::span::compare(s, r.end, s, q.end, false).is_eq()
}

// Of a table's own range and a view's effective range.
pub fn ranges_fraction(s: &[u8], physical: RangeSpan, effective: RangeSpan) -> VisibleFraction
    requires fact_1 { BoundInside s.now physical.start }
    requires fact_2 { BoundInside s.now physical.end }
    requires fact_3 { BoundInside s.now effective.start }
    requires fact_4 { BoundInside s.now effective.end }
    ensures { FractionFound (ranges_fraction (range_in s.now physical.start physical.end) (range_in s.now effective.start effective.end)) result }
{
    if same_range(s, effective, physical) {
        VisibleFraction::Whole
    } else {
        let skip = common_prefix_len(bound_key(s, physical.start), bound_key(s, physical.end));
        lengths_fraction(range_len(s, effective, skip), range_len(s, physical, skip))
    }
}
