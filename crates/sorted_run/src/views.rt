// The views of a run, each read where it stands.
ghost use Rattle.std.specs.Prelude.{◌≡◌, ◌<◌, T, drop};
ghost use Rattle.records.specs.Found.{is_got};
ghost use Rattle.records.specs.Layouts.{view};
ghost use Rattle.db_state.specs.Lookup.{overlaps_range, table_intersects};
ghost use Rattle.sst_view.specs.Asked.{range_at, SpanInside};
ghost use Rattle.sst_view.specs.Runs.{RunInside, views_of, PlacesOf};
ghost use Rattle.sorted_run.specs.Found.{EffectiveThere, EndThere, Sought};

use comparable_range::Kind;
use format::BoundSpan;
use format::span::RangeSpan;
use manifest::effective;
use records::RunSpan;
use sst_view::views::{end_before, intersects};

// The effective range of a view, and the place past the view.
#[derive(Clone, Copy)]
pub struct EffectiveSpan {
    pub range: RangeSpan,
    pub past: usize,
}

// The same of the view at a place.
pub fn effective_there(image: &[u8], at: usize) -> EffectiveSpan
    requires { T (is_got (view.read (drop at image.now))) }
    ensures { EffectiveThere image.now (view.read (drop at image.now)) result }
{
    let v = records::view_there(image, at);
    EffectiveSpan {
        range: effective(image, v),
        past: v.past,
    }
}

// The end of a view before the next one, which stands past it.
fn end_there(image: &[u8], own: EffectiveSpan) -> BoundSpan
    requires fact_1 { SpanInside image.now own.range }
    requires fact_2 { T (is_got (view.read (drop own.past image.now))) }
    ensures { EndThere image.now own.range (view.read (drop own.past image.now)) result }
{
    let next = effective_there(image, own.past);
    end_before(image, own.range, next.range.start)
}

// Whether a run's span, from the first view's start to the last view's end, meets the asked range.
pub fn run_overlaps<'a>(image: &'a [u8], r: RunSpan, range: &'a [u8], asked: RangeSpan) -> bool
    requires fact_1 { RunInside image.now r }
    requires fact_2 { SpanInside range.now asked }
    ensures { result ≡ overlaps_range (views_of image.now r) (range_at range.now asked) }
{
    if r.views == 0 {
        return false;
    }
    let first = effective_there(image, r.first);
    let last = effective_there(image, records::views_end(image, r.first, r.views - 1));
    intersects(
        image,
        first.range.start,
        image,
        last.range.end,
        range,
        asked,
    )
}

// Whether the view at a place of a run intersects the asked range, up to the next view's start if there is one. Where the
// views stand is in a table.
pub fn intersects_at<'a>(
    image: &'a [u8],
    r: RunSpan,
    places: &[usize],
    idx: usize,
    range: &'a [u8],
    asked: RangeSpan,
) -> bool
    requires fact_1 { Sought image.now r range.now asked }
    requires fact_2 { PlacesOf image.now r places.now }
    requires fact_3 { idx < r.views }
    ensures { result ≡ table_intersects (views_of image.now r) (range_at range.now asked) idx }
{
    let own = effective_there(image, places[idx]);
    let end = if idx + 1 < r.views {
        end_there(image, own)
    } else {
        BoundSpan {
            kind: Kind::Unbounded,
            at: 0,
            len: 0,
        }
    };
    intersects(image, own.range.start, image, end, range, asked)
}
