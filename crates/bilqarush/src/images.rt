// The public calls on images. Each takes any bytes and answers the number of a stop, or what was asked.
ghost use Rattle.std.specs.Prelude.{◌≡◌, length};
ghost use Rattle.base.specs.Outcome.{lent, reported};
ghost use Rattle.bilqarush.specs.ImageCalls.{check_image_outcome, checked_answer, compacted_effective_range_outcome, ViewRangeFound, list_outcome};

use base::Written;
use format::BoundSpan;
use manifest::Judged;
use records::ViewRead;

#[derive(Clone, Copy)]
pub enum Checked {
    Accepted,
    Stop(u8),
}

// Whether bytes are an image.
#[tactic(auto, using(crate::proofs::ImageExits::check_exits))]
pub fn check_image(image: &[u8]) -> Checked
    ensures { checked_answer result ≡ check_image_outcome image.now }
{
    match manifest::image_judged(image) {
        Judged::Stop(k) => Checked::Stop(k),
        Judged::At { next: _, fault } => {
            if fault < 8 {
                return Checked::Stop(fault);
            }
            Checked::Accepted
        }
    }
}

// The bounds of a range, each with the place of its key in the image.
#[derive(Clone, Copy)]
pub enum ViewRange {
    At { start: BoundSpan, end: BoundSpan },
    Stop(u8),
}

// The effective range of a view, which is called by its place in the run that is called by its place; both count from 0.
#[tactic(auto, using(crate::proofs::ImageExits::effective_exits))]
pub fn compacted_effective_range(image: &[u8], run: usize, view: usize) -> ViewRange
    ensures { ViewRangeFound image.now (compacted_effective_range_outcome image.now run view) result }
{
    match sst_view::view_given(image, run, view) {
        ViewRead::Stop(k) => ViewRange::Stop(k),
        ViewRead::At(v) => {
            let e = manifest::effective(image, v);
            let start = e.start;
            let end = e.end;
            ViewRange::At { start, end }
        }
    }
}

// The listing of an image. It is measured before the first byte is written.
#[tactic(auto, using(crate::proofs::ImageExits::list_exits))]
pub fn list(image: &[u8], out: &mut [u8]) -> Written
    ensures value { result ≡ reported (list_outcome image.now (length out.old)) }
    ensures out_after { out.new ≡ lent out.old (list_outcome image.now (length out.old)) }
{
    match manifest::image_judged(image) {
        Judged::Stop(k) => Written::Stop(k),
        Judged::At { next: _, fault } => {
            if fault < 8 {
                return Written::Stop(fault);
            }
            let size = listing::listing_len(image);
            if out.len() < size {
                return Written::Stop(16);
            }
            listing::put_listing(image, out);
            Written::Wrote(size)
        }
    }
}
