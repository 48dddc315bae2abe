// `plan_subcompaction_ranges` of subcompaction.rs: an image, and one index image for each of its views, laid end to end in one
// buffer, give the ranges of its compaction.
#![tactic(auto)]

ghost use Rattle.std.specs.Prelude.{◌≡◌, ◌≤◌, ◌/◌, min, T, length};
ghost use Rattle.base.specs.Outcome.{lent, reported};
ghost use Rattle.records.specs.Found.{is_got, values_of};
ghost use Rattle.records.specs.Layouts.{image};
ghost use Rattle.records.specs.Spans.{ViewInside, view_in};
ghost use Rattle.manifest.specs.Faults.{fault_of};
ghost use Rattle.subcompaction.specs.PlanCalls.{views, plan_subcompaction_ranges_outcome};
ghost use Rattle.plan_subcompaction_ranges.specs.Walks.{RunViews, run_views, IndexNext, SampledSome, WithView, SampledMore, ViewsPast, SampledAll};
ghost use Rattle.plan_subcompaction_ranges.specs.Walks.{ImageJudged, passing_size, total_fits, stop_after};

use base::Written;
use manifest::{Judged, size_passes};
use planned::{Asked, planned};
use records::{RunSpan, ViewSpan};
use sampled::{Kept, Sampling, sample};

// What the walk over the views has found so far: the place past the last index image, the number of the first check of the
// index images that fails or 8, the anchors that were kept, and the largest raw size.
#[derive(Clone, Copy)]
pub struct SoFar {
    pub at: usize,
    pub fault: u8,
    pub kept: Kept,
    pub largest: u64,
}

// What was found of all views, or the number of the stop.
#[derive(Clone, Copy)]
pub enum Walked {
    All(SoFar),
    Stop(u8),
}

// The place past a run's views with what was found so far, or the number of the stop.
#[derive(Clone, Copy)]
pub enum RunWalked {
    At(usize, SoFar),
    Stop(u8),
}

// A table's raw size; 0 where check 7 refuses it, so that the sum does not wrap.
#[tactic(auto, using(crate::proofs::WithViewExits::raw_exits))]
fn raw_size(offset: u64, len: u64) -> u64
    ensures { result ≡ passing_size offset len }
{
    if size_passes(offset, len) {
        offset + len
    } else {
        0
    }
}

// One more view, whose index image was read: it ends at next, and fault is the check that it fails.
#[tactic(auto, using(crate::proofs::WithViewExits::view_exits))]
fn with_view(
    image: &[u8],
    v: ViewSpan,
    indexes: &[u8],
    next: usize,
    fault: u8,
    keys: &mut [usize],
    bytes: &mut [u64],
    w: SoFar,
) -> SoFar
    requires fact_1 { ViewInside image.now v }
    requires fact_2 { SampledSome indexes.now keys.old bytes.old w }
    requires fact_3 { IndexNext indexes.now w.at next fault }
    ensures { WithView indexes.now keys.old bytes.old w (view_in image.now v) keys.new bytes.new result }
{
    let t = v.table;
    let ask = Sampling {
        at: w.at,
        most: 128,
        data_end: t.filter_offset,
    };
    let range = manifest::effective(image, v);
    let kept = sample(indexes, ask, image, range, keys, bytes, w.kept);
    SoFar {
        at: next,
        fault: w.fault.min(fault),
        kept,
        largest: w.largest.max(raw_size(t.index_offset, t.index_len)),
    }
}

// The views of one more run: each has its index image where the one before ended.
#[tactic(auto, using(crate::proofs::WalkExits::views_exits))]
fn views_sampled(
    image: &[u8],
    r: RunSpan,
    indexes: &[u8],
    keys: &mut [usize],
    bytes: &mut [u64],
    before: SoFar,
) -> RunWalked
    requires fact_1 { RunViews image.now r }
    requires fact_2 { SampledSome indexes.now keys.old bytes.old before }
    ensures sampled_more { SampledMore indexes.now keys.old bytes.old before (run_views image.now r) keys.new bytes.new result }
    ensures views_past { ViewsPast image.now r result }
{
    let mut at = r.first;
    let mut w = before;
    for _ in 0..r.views {
        let v = records::view_there(image, at);
        match manifest::index_at(indexes, w.at) {
            Judged::Stop(k) => return RunWalked::Stop(k),
            Judged::At { next, fault } => {
                w = with_view(image, v, indexes, next, fault, keys, bytes, w);
                at = v.past;
            }
        }
    }
    RunWalked::At(at, w)
}

// The views of all runs of an image that is there.
#[tactic(auto, using(crate::proofs::WalkExits::runs_exits))]
fn runs_sampled(given: &[u8], indexes: &[u8], keys: &mut [usize], bytes: &mut [u64]) -> Walked
    requires fact_1 { T (is_got (image.read given.now)) }
    requires fact_2 { length bytes.old ≡ length keys.old }
    ensures { SampledAll indexes.now keys.old keys.new bytes.new (views (values_of (image.read given.now))) result }
{
    let n = records::runs_there(given, 0);
    let none = Kept { rows: 0, total: 0 };
    let mut w = SoFar {
        at: 0,
        fault: 8,
        kept: none,
        largest: 0,
    };
    let mut at = 1;
    for _ in 0..n {
        let r = records::run_there(given, at);
        match views_sampled(given, r, indexes, keys, bytes, w) {
            RunWalked::Stop(k) => return Walked::Stop(k),
            RunWalked::At(next, more) => {
                w = more;
                at = next;
            }
        }
    }
    Walked::All(w)
}

// Check 7 of a total: 7 once it has reached 2^63, or 8.
#[tactic(auto, using(crate::proofs::WithViewExits::total_exits))]
fn total_fault(total: u64) -> u8
    ensures { result ≡ fault_of (total_fits total) }
{
    if total < 9223372036854775808 { 8 } else { 7 }
}

// The number of the stop after the walk over an index buffer of some bytes, or 8: 1 if bytes remain, then the first of the
// checks 4 to 7, where fault is the image's, then 15.
#[tactic(auto, using(crate::proofs::PlannerExits::stop_exits))]
fn stop_after(fault: u8, w: SoFar, len: usize) -> u8
    ensures { result ≡ stop_after fault w len }
{
    if w.at < len {
        return 1;
    }
    let first = fault.min(w.fault).min(total_fault(w.kept.total));
    if first < 8 {
        return first;
    }
    if 4096 < w.kept.rows { 15 } else { 8 }
}

// The plan, after an image of which a number is the first of the checks 4 to 7 that fails, or 8. A block takes at least 10 bytes, so
// that each anchor that may be kept has a row in tables of N.
#[tactic(auto, using(crate::proofs::PlannerExits::plan_exits))]
fn plan_sampled<const N: usize>(
    parts: usize,
    given: &[u8],
    fault: u8,
    indexes: &[u8],
    out: &mut [u8],
) -> Written
    requires parts_bound_1 { parts ≤ 64 }
    requires parts_bound_2 { ImageJudged given.now fault }
    requires parts_bound_3 { length indexes.now ≤ 65536 }
    requires rows_enough_1 { min 4096 (length indexes.now / 10) ≤ N }
    requires rows_enough_2 { N ≤ 4096 }
    ensures value { result ≡ reported (plan_subcompaction_ranges_outcome parts given.now indexes.now (length out.old)) }
    ensures out_after { out.new ≡ lent out.old (plan_subcompaction_ranges_outcome parts given.now indexes.now (length out.old)) }
{
    let mut keys = [0usize; N];
    let mut bytes = [0u64; N];
    match runs_sampled(given, indexes, &mut keys, &mut bytes) {
        Walked::Stop(k) => Written::Stop(k),
        Walked::All(w) => {
            let k = stop_after(fault, w, indexes.len());
            if k != 8 {
                return Written::Stop(k);
            }
            let kept = w.kept;
            let ask = Asked {
                parts,
                least: w.largest,
                total: kept.total,
            };
            if kept.rows <= 64 {
                planned::<64>(indexes, &keys, &bytes, kept.rows, ask, out)
            } else {
                planned::<4096>(indexes, &keys, &bytes, kept.rows, ask, out)
            }
        }
    }
}

// Ranges for a number of parts, from an image and its index images.
#[tactic(auto, using(crate::proofs::PlanCallExits::call_exits))]
pub fn plan_subcompaction_ranges(
    parts: usize,
    image: &[u8],
    indexes: &[u8],
    out: &mut [u8],
) -> Written
    ensures value { result ≡ reported (plan_subcompaction_ranges_outcome parts image.now indexes.now (length out.old)) }
    ensures out_after { out.new ≡ lent out.old (plan_subcompaction_ranges_outcome parts image.now indexes.now (length out.old)) }
{
    if 64 < parts {
        return Written::Stop(3);
    }
    match manifest::image_judged(image) {
        Judged::Stop(k) => Written::Stop(k),
        Judged::At { fault, .. } => {
            if 65536 < indexes.len() {
                return Written::Stop(3);
            }
            // Few bytes have few anchors, and get short tables: a small call does not pay for clearing long ones.
            if indexes.len() <= 640 {
                plan_sampled::<64>(parts, image, fault, indexes, out)
            } else {
                plan_sampled::<4096>(parts, image, fault, indexes, out)
            }
        }
    }
}
