// A gap in a row of six numbers: its start and its end.
ghost use Rattle.std.specs.Prelude.{◌≡◌, ◌≤◌, ◌+◌, ◌*◌, length};
ghost use Rattle.base.specs.Rows.{row_at};
ghost use Rattle.base.specs.Splice.{splice};
ghost use Rattle.commit_rows.specs.Numbers.{gap_of, gap_numbers};

use crate::bounds::{bound_at, put_bound};
use format::BoundSpan;
use format::span::RangeSpan;

pub fn gap_row(gaps: &[usize], g: usize) -> RangeSpan
    requires { g * 6 + 6 ≤ length gaps.now }
    ensures { result ≡ gap_of (row_at 6 g gaps.now) }
{
    let at = g * 6;
    RangeSpan {
        start: bound_at(gaps, at),
        end: bound_at(gaps, at + 3),
    }
}

pub fn put_gap(gaps: &mut [usize], g: usize, start: BoundSpan, end: BoundSpan)
    requires { g * 6 + 6 ≤ length gaps.old }
    ensures { gaps.new ≡ splice gaps.old (g * 6) (gap_numbers start end) }
{
    let at = g * 6;
    put_bound(gaps, at, start);
    put_bound(gaps, at + 3, end);
}
