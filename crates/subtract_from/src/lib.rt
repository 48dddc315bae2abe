// `subtract_from` of incremental_progress.rs: what of a range lies outside a durable interval. Both are read in place.
#![tactic(auto)]

mod parts;
mod put;

ghost use Rattle.std.specs.Prelude.{◌≡◌, ◌≤◌, length};
ghost use Rattle.base.specs.Outcome.{lent, reported};
ghost use Rattle.format.specs.Range.{BoundInside};
ghost use Rattle.subtract_from.specs.Found.{span_in, subtracted_to};
ghost use Rattle.subtract_from.specs.SubtractCalls.{subtract_from_outcome};

use base::Written;
use commit_durable::half_open;
use format::span::RangeSpan;
use format::{RangeRead, span};
use parts::{part_before, part_from};
use put::parts_written;

// The parts of a range outside an interval, written to the front of out: the checks 4, 10 and 16.
fn subtracted<'a>(
    range: &'a [u8],
    r: RangeSpan,
    interval: &'a [u8],
    d: RangeSpan,
    out: &mut [u8],
) -> Written
    requires bound_inside_1 { BoundInside range.now r.start }
    requires bound_inside_2 { BoundInside range.now r.end }
    requires bound_inside_3 { length range.now ≤ 65536 }
    requires bound_inside_2_1 { BoundInside interval.now d.start }
    requires bound_inside_2_2 { BoundInside interval.now d.end }
    requires bound_inside_2_3 { length interval.now ≤ 65536 }
    ensures value { result ≡ reported (subtracted_to (length out.old) (span_in interval.now d) (span_in range.now r)) }
    ensures out_after { out.new ≡ lent out.old (subtracted_to (length out.old) (span_in interval.now d) (span_in range.now r)) }
{
    if !span::passes(interval, d.start, interval, d.end)
        || !span::passes(range, r.start, range, r.end)
    {
        return Written::Stop(4);
    }
    if !half_open(d.start.kind, d.end.kind) {
        return Written::Stop(10);
    }
    let before = part_before(range, r, interval, d.start);
    let from = part_from(range, r, interval, d.end);
    parts_written(range, interval, before, from, out)
}

// Reads a durable interval and a range, and writes to the front of out the parts of the range outside the interval: none, one
// or two, in key order. Stops 1 to 4, 10 and 16.
pub fn subtract_from<'a>(interval: &'a [u8], range: &'a [u8], out: &mut [u8]) -> Written
    ensures value { result ≡ reported (subtract_from_outcome interval.now range.now (length out.old)) }
    ensures out_after { out.new ≡ lent out.old (subtract_from_outcome interval.now range.now (length out.old)) }
{
    match format::range_whole(interval) {
        RangeRead::Stop(n) => Written::Stop(n),
        RangeRead::At {
            start: s,
            end: e,
            next: _,
        } => match format::range_whole(range) {
            RangeRead::Stop(n) => Written::Stop(n),
            RangeRead::At {
                start: t,
                end: f,
                next: _,
            } => subtracted(
                range,
                RangeSpan { start: t, end: f },
                interval,
                RangeSpan { start: s, end: e },
                out,
            ),
        },
    }
}
