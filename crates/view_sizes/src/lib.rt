// The visible fraction and the visible size of a view of an image, and the visible size of a run.
#![tactic(auto)]

ghost use Rattle.std.specs.Prelude.{◌≡◌, true};
ghost use Rattle.records.specs.Spans.{ViewInside, view_in};
ghost use Rattle.manifest.specs.Checks.{all, size_passes};
ghost use Rattle.sst_view.specs.Runs.{RunInside, views_of};
ghost use Rattle.visible_size.specs.Sizes.{visible_fraction, estimate_run_visible_size};
ghost use Rattle.visible_size.specs.Numbers.{FractionFound};
ghost use Rattle.view_sizes.specs.Found.{ViewSized};
ghost use Rattle.view_sizes.specs.SizeCalls.{visible_fraction_outcome, estimate_visible_size_outcome, estimate_run_visible_size_outcome, fraction_of, size_of};

use format::span::RangeSpan;
use manifest::{Judged, effective};
use records::{RunSpan, ViewRead, ViewSpan};
use sst_view::places::{RunPlaced, run_in_image};
use sst_view::view_given;
use visible_size::VisibleFraction;
use visible_size::fraction::ranges_fraction;
use visible_size::size::visible_size;

// How much of a view's table is visible, or the number of the stop.
#[derive(Clone, Copy)]
pub enum Shown {
    Fraction(VisibleFraction),
    Stop(u8),
}

// A size in bytes, or the number of the stop.
#[derive(Clone, Copy)]
pub enum Estimated {
    Bytes(u64),
    Stop(u8),
}

fn view_fraction(image: &[u8], v: ViewSpan) -> VisibleFraction
    requires { ViewInside image.now v }
    ensures { FractionFound (visible_fraction (view_in image.now v)) result }
{
    if !v.table.flagged {
        return VisibleFraction::Whole;
    }
    let physical = RangeSpan {
        start: manifest::own_start(v.table),
        end: manifest::own_end(v.table),
    };
    ranges_fraction(image, physical, effective(image, v))
}

// Of a view whose table passes check 7.
fn view_size(image: &[u8], v: ViewSpan) -> u64
    requires fact_1 { ViewInside image.now v }
    requires fact_2 { size_passes (view_in image.now v).table ≡ true }
    ensures { ViewSized (view_in image.now v) result }
{
    let raw = v.table.index_offset + v.table.index_len;
    if v.shown {
        visible_size(raw, view_fraction(image, v))
    } else {
        raw
    }
}

// The sum over the views of a run. At most 1,024 of at most 2^53 each: it does not wrap. A walk over views of its own: an
// iterator over them would hold what is known of each place as ghost fields, and is no plainer.
fn run_size(image: &[u8], r: RunSpan) -> u64
    requires fact_1 { RunInside image.now r }
    requires fact_2 { all (λ v. size_passes v.table) (views_of image.now r) ≡ true }
    ensures { result ≡ estimate_run_visible_size (views_of image.now r) }
{
    let mut sum = 0;
    let mut at = r.first;
    for _ in 0..r.views {
        let v = records::view_there(image, at);
        sum += view_size(image, v);
        at = v.past;
    }
    sum
}

// How much of its table a view of an image shows: all of it, or a part together with its fraction.
pub fn visible_fraction(image: &[u8], run: usize, view: usize) -> Shown
    ensures { fraction_of result ≡ visible_fraction_outcome image.now run view }
{
    match view_given(image, run, view) {
        ViewRead::Stop(k) => Shown::Stop(k),
        ViewRead::At(v) => Shown::Fraction(view_fraction(image, v)),
    }
}

// The bytes of a view's table that the view shows, as its keys let one estimate.
pub fn estimate_visible_size(image: &[u8], run: usize, view: usize) -> Estimated
    ensures { size_of result ≡ estimate_visible_size_outcome image.now run view }
{
    match view_given(image, run, view) {
        ViewRead::Stop(k) => Estimated::Stop(k),
        ViewRead::At(v) => Estimated::Bytes(view_size(image, v)),
    }
}

// The same of a run: the sum over its views.
pub fn estimate_run_visible_size(image: &[u8], run: usize) -> Estimated
    ensures { size_of result ≡ estimate_run_visible_size_outcome image.now run }
{
    match manifest::image_judged(image) {
        Judged::Stop(k) => Estimated::Stop(k),
        Judged::At { next: _, fault } => {
            if fault < 8 {
                return Estimated::Stop(fault);
            }
            match run_in_image(image, run) {
                RunPlaced::Stop(k) => Estimated::Stop(k),
                RunPlaced::At(r) => Estimated::Bytes(run_size(image, r)),
            }
        }
    }
}
