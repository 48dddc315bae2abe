// Lookups in one view of an image.
ghost use Rattle.std.specs.Prelude.{◌≡◌, true, ◌<◌, T, drop};
ghost use Rattle.base.specs.Outcome.{test_of};
ghost use Rattle.comparable_range.specs.Range.{intersect_sides, meets, holds};
ghost use Rattle.comparable_range.specs.declared.Side.TheVariants.{First, Second};
ghost use Rattle.format.specs.Joint.{from as supplied};
ghost use Rattle.format.specs.Joint as joint;
ghost use Rattle.format.specs.Range.{BoundInside, bound_in};
ghost use Rattle.format.specs.Span.{JointFound, met_in, MetInside, MetFound};
ghost use Rattle.records.specs.Found.{is_got};
ghost use Rattle.records.specs.Layouts.{view};
ghost use Rattle.records.specs.Spans.{ViewInside, view_in};
ghost use Rattle.manifest.specs.Checks.{table_passes};
ghost use Rattle.manifest.specs.Spans.{EffectiveFound};
ghost use Rattle.db_state.specs.Lookup.{between, intersects_range, cut_to_visible, calculate_view_range};
ghost use Rattle.db_state.specs.LookupCalls.{calculate_view_range_outcome, compacted_intersection_outcome, intersects_range_outcome};
ghost use Rattle.sst_view.specs.Asked.{range_at, SpanInside};
ghost use Rattle.sst_view.specs.Runs.{RunInside, views_of};
ghost use Rattle.sst_view.specs.Views.{key_at, StartThere, end_span, cut_before, kept_at, from_span, visible_span, joined_of};

use crate::asked::{Asked, EndAsked, image_and_range, image_end_and_range};
use crate::places::{RunPlaced, run_in_image, view_in_image};
use base::Tested;
use comparable_range::{Kind, Side};
use format::BoundSpan;
use format::span::{Joined, JointSpan, RangeSpan, Supplied, bound_of, intersect_joint, slice_of};
use manifest::effective;
use records::{RunSpan, ViewRead, ViewSpan};

// Whether the range from a start, in the image, to an end, in a slice of its own, meets the asked range: the greater start
// comes before the lesser end.
pub fn intersects<'a>(
    image: &'a [u8],
    start: BoundSpan,
    e: &'a [u8],
    end: BoundSpan,
    range: &'a [u8],
    asked: RangeSpan,
) -> bool
    requires fact_1 { BoundInside image.now start }
    requires fact_2 { BoundInside e.now end }
    requires fact_3 { SpanInside range.now asked }
    ensures { result ≡ meets (intersect_sides (between (bound_in image.now start) (bound_in e.now end)) (range_at range.now asked)) }
{
    let s = format::span::greater_start(image, start, range, asked.start);
    let f = format::span::lesser_end(e, end, range, asked.end);
    format::span::passes(
        slice_of(s, image, range),
        bound_of(s, start, asked.start),
        slice_of(f, e, range),
        bound_of(f, end, asked.end),
    )
}

// Where the view at a place starts.
#[tactic(auto, using(crate::proofs::RunViews::start_exits))]
pub fn start_at(image: &[u8], at: usize) -> BoundSpan
    requires { T (is_got (view.read (drop at image.now))) }
    ensures { StartThere image.now (view.read (drop at image.now)) result }
{
    effective(image, records::view_there(image, at)).start
}

// The end of a view whose effective range is given, before a view that starts at a bound: included if it holds that key.
pub fn end_before(image: &[u8], own: RangeSpan, next: BoundSpan) -> BoundSpan
    requires fact_1 { SpanInside image.now own }
    requires fact_2 { BoundInside image.now next }
    ensures { result ≡ end_span (holds (range_at image.now own) (key_at image.now next)) next }
{
    let kind = if format::span::holds(image, own, format::key_of(image, next)) {
        Kind::Included
    } else {
        Kind::Excluded
    };
    BoundSpan { kind, ..next }
}

// A range that one of two slices supplies.
fn from(side: Side, r: RangeSpan) -> JointSpan
    ensures { result ≡ from_span side r }
{
    JointSpan {
        start: Supplied {
            side,
            bound: r.start,
        },
        end: Supplied { side, bound: r.end },
    }
}

// The visible range of a view that has one.
fn visible(v: ViewSpan) -> RangeSpan
    ensures { result ≡ visible_span v }
{
    RangeSpan {
        start: v.start,
        end: v.end,
    }
}

// An intersection, as a call answers it.
fn joined(m: Option<JointSpan>) -> Joined
    ensures { result ≡ joined_of m }
{
    match m {
        None => Joined::Nothing,
        Some(j) => Joined::Range(j.start, j.end),
    }
}

// What a range of the image and the asked range have in common.
fn intersect_asked<'a>(
    image: &'a [u8],
    r: RangeSpan,
    range: &'a [u8],
    asked: RangeSpan,
) -> Option<JointSpan>
    requires fact_1 { SpanInside image.now r }
    requires fact_2 { SpanInside range.now asked }
    ensures { MetFound image.now range.now (joint.intersect (supplied First (range_at image.now r)) (supplied Second (range_at range.now asked))) result }
{
    intersect_joint(
        image,
        range,
        from(Side::First, r),
        from(Side::Second, asked),
    )
}

// The asked range cut by a view's visible range; without one, by the effective range of a table that has a last key.
fn cut_to_view<'a>(
    image: &'a [u8],
    v: ViewSpan,
    range: &'a [u8],
    asked: RangeSpan,
) -> Option<JointSpan>
    requires fact_1 { ViewInside image.now v }
    requires fact_2 { SpanInside range.now asked }
    ensures { MetFound image.now range.now (calculate_view_range (view_in image.now v) (range_at range.now asked)) result }
{
    let given = from(Side::Second, asked);
    if v.shown {
        intersect_joint(image, range, given, from(Side::First, visible(v)))
    } else if v.table.flagged {
        intersect_joint(image, range, given, from(Side::First, effective(image, v)))
    } else {
        Some(given)
    }
}

// The part of an asked range that a view shows.
#[tactic(auto, using(crate::proofs::AskedExits::given_exits, crate::proofs::ViewCalls::calculate_exits))]
pub fn calculate_view_range<'a>(image: &'a [u8], run: usize, view: usize, range: &'a [u8]) -> Joined
    ensures { JointFound image.now range.now (calculate_view_range_outcome image.now run view range.now) result }
{
    match image_and_range(image, range) {
        Asked::Stop(k) => Joined::Stop(k),
        Asked::Range(asked) => match view_in_image(image, run, view) {
            ViewRead::Stop(k) => Joined::Stop(k),
            ViewRead::At(v) => joined(cut_to_view(image, v, range, asked)),
        },
    }
}

// An intersection cut by a view's visible range, if it has one: a gap that an earlier projection left stays.
fn cut_to_visible<'a>(
    image: &'a [u8],
    v: ViewSpan,
    range: &'a [u8],
    m: Option<JointSpan>,
) -> Option<JointSpan>
    requires fact_1 { ViewInside image.now v }
    requires fact_2 { MetInside image.now range.now m }
    ensures { MetFound image.now range.now (cut_to_visible (view_in image.now v).visible (met_in image.now range.now m)) result }
{
    match m {
        Some(j) if v.shown => intersect_joint(image, range, j, from(Side::First, visible(v))),
        Some(_) | None => m,
    }
}

// What a view keeps of the asked range before the next view, which starts at a bound.
fn cut_to_next<'a>(
    image: &'a [u8],
    v: ViewSpan,
    own: RangeSpan,
    next: BoundSpan,
    range: &'a [u8],
    asked: RangeSpan,
) -> Option<JointSpan>
    requires fact_1 { ViewInside image.now v }
    requires fact_2 { EffectiveFound image.now v own }
    requires fact_3 { BoundInside image.now next }
    requires fact_4 { SpanInside range.now asked }
    ensures { MetFound image.now range.now (cut_before (view_in image.now v) (key_at image.now next) (range_at range.now asked)) result }
{
    let before = RangeSpan {
        start: own.start,
        end: end_before(image, own, next),
    };
    let m = intersect_asked(image, before, range, asked);
    cut_to_visible(image, v, range, m)
}

// What the view at a place of a run keeps, by the view after it, if there is one.
fn view_kept<'a>(
    image: &'a [u8],
    r: RunSpan,
    place: usize,
    range: &'a [u8],
    asked: RangeSpan,
) -> Option<JointSpan>
    requires fact_1 { RunInside image.now r }
    requires fact_2 { place < r.views }
    requires fact_3 { SpanInside range.now asked }
    ensures { JointFound image.now range.now (kept_at (views_of image.now r) place (range_at range.now asked)) (joined_of result) }
{
    let v = records::view_there(image, records::views_end(image, r.first, place));
    let own = effective(image, v);
    if place + 1 < r.views {
        cut_to_next(image, v, own, start_at(image, v.past), range, asked)
    } else {
        intersect_asked(image, own, range, asked)
    }
}

// The same where there may be no view at the place.
#[tactic(auto, using(crate::proofs::KeptExits::in_run_kept))]
fn kept_in_run<'a>(
    image: &'a [u8],
    r: RunSpan,
    place: usize,
    range: &'a [u8],
    asked: RangeSpan,
) -> Joined
    requires fact_1 { RunInside image.now r }
    requires fact_2 { SpanInside range.now asked }
    ensures { JointFound image.now range.now (kept_at (views_of image.now r) place (range_at range.now asked)) result }
{
    if r.views <= place {
        return Joined::Stop(9);
    }
    joined(view_kept(image, r, place, range, asked))
}

// The part of the asked range that a view keeps.
#[tactic(auto, using(crate::proofs::AskedExits::given_exits, crate::proofs::KeptExits::compacted_exits))]
pub fn compacted_intersection<'a>(
    image: &'a [u8],
    run: usize,
    view: usize,
    range: &'a [u8],
) -> Joined
    ensures { JointFound image.now range.now (compacted_intersection_outcome image.now run view range.now) result }
{
    match image_and_range(image, range) {
        Asked::Stop(k) => Joined::Stop(k),
        Asked::Range(asked) => match run_in_image(image, run) {
            RunPlaced::Stop(k) => Joined::Stop(k),
            RunPlaced::At(r) => kept_in_run(image, r, view, range, asked),
        },
    }
}

// Whether a view that passes check 5 intersects the asked range, up to an end bound in a slice of its own.
fn view_intersects<'a>(
    image: &'a [u8],
    v: ViewSpan,
    e: &'a [u8],
    end: BoundSpan,
    range: &'a [u8],
    asked: RangeSpan,
) -> bool
    requires fact_1 { ViewInside image.now v }
    requires fact_2 { table_passes (view_in image.now v) ≡ true }
    requires fact_3 { BoundInside e.now end }
    requires fact_4 { SpanInside range.now asked }
    ensures { result ≡ intersects_range (view_in image.now v) (bound_in e.now end) (range_at range.now asked) }
{
    let own = effective(image, v);
    intersects(image, own.start, e, end, range, asked)
}

// Whether a view intersects the asked range, up to an end bound that is given by its kind and its key.
pub fn intersects_range<'a>(
    image: &'a [u8],
    run: usize,
    view: usize,
    end_kind: u8,
    end: &'a [u8],
    range: &'a [u8],
) -> Tested
    ensures { test_of result ≡ intersects_range_outcome image.now run view end_kind end.now range.now }
{
    match image_end_and_range(image, end_kind, end, range) {
        EndAsked::Stop(k) => Tested::Stop(k),
        EndAsked::At(bound, asked) => match view_in_image(image, run, view) {
            ViewRead::Stop(k) => Tested::Stop(k),
            ViewRead::At(v) => { Tested::Is(view_intersects(image, v, end, bound, range, asked)) }
        },
    }
}
