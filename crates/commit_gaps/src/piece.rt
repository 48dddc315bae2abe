// What of a range lies in one gap. The range passes `non_empty` and stands in the image; the gap's bounds stand in the job.
ghost use Rattle.std.specs.Prelude.{◌≡◌, true};
ghost use Rattle.std.specs.declared.cmp.Ordering.TheVariants.{Less};
ghost use Rattle.comparable_range.specs.Range.{non_empty, cmp_bound};
ghost use Rattle.format.specs.Range.{bound_in, range_in};
ghost use Rattle.commit_gaps.specs.Found.{Inside, StartsWithin, MeetingIs};

use comparable_range::Side;
use format::span;
use format::span::RangeSpan;
use std::cmp::Ordering;

// All that the range is, or a part of which each bound is the range's (first) or the gap's (second).
#[derive(Clone, Copy)]
pub enum Piece {
    Whole,
    Cut(Side, Side),
}

// Nothing, or even a gap that starts where the range has ended; or a piece, which is the last one if the range ends in the gap.
#[derive(Clone, Copy)]
pub enum Meeting {
    Apart,
    Past,
    Last(Piece),
    More(Piece),
}

// Of a range that starts before the gap does.
fn meeting_ahead<'a>(image: &'a [u8], range: RangeSpan, job: &'a [u8], gap: RangeSpan) -> Meeting
    requires fact_1 { Inside image.now range }
    requires fact_2 { Inside job.now gap }
    requires fact_3 { cmp_bound true (bound_in image.now range.start) (bound_in job.now gap.start) ≡ Less }
    ensures { MeetingIs (range_in image.now range.start range.end) (range_in job.now gap.start gap.end) result }
{
    if !span::passes(job, gap.start, image, range.end) {
        return Meeting::Past;
    }
    match span::lesser_end(image, range.end, job, gap.end) {
        Side::First => Meeting::Last(Piece::Cut(Side::Second, Side::First)),
        Side::Second if span::passes(job, gap.start, job, gap.end) => {
            Meeting::More(Piece::Cut(Side::Second, Side::Second))
        }
        Side::Second => Meeting::Apart,
    }
}

// Of a range that starts where the gap does (second) or after that (first).
fn meeting_within<'a>(
    image: &'a [u8],
    range: RangeSpan,
    job: &'a [u8],
    gap: RangeSpan,
    side: Side,
) -> Meeting
    requires fact_1 { Inside image.now range }
    requires fact_2 { Inside job.now gap }
    requires fact_3 { StartsWithin (range_in image.now range.start range.end) (range_in job.now gap.start gap.end) side }
    ensures { MeetingIs (range_in image.now range.start range.end) (range_in job.now gap.start gap.end) result }
{
    match span::lesser_end(image, range.end, job, gap.end) {
        Side::First => Meeting::Last(Piece::Whole),
        Side::Second if span::passes(image, range.start, job, gap.end) => {
            Meeting::More(Piece::Cut(side, Side::Second))
        }
        Side::Second => Meeting::Apart,
    }
}

// Starts are compared first: a range within the gap takes two comparisons, and one that ends before the gap two.
pub fn meet<'a>(image: &'a [u8], range: RangeSpan, job: &'a [u8], gap: RangeSpan) -> Meeting
    requires fact_1 { Inside image.now range }
    requires fact_2 { Inside job.now gap }
    requires fact_3 { non_empty (range_in image.now range.start range.end) ≡ true }
    ensures { MeetingIs (range_in image.now range.start range.end) (range_in job.now gap.start gap.end) result }
{
    match span::compare(image, range.start, job, gap.start, true) {
        Ordering::Less => meeting_ahead(image, range, job, gap),
        Ordering::Equal => meeting_within(image, range, job, gap, Side::Second),
        Ordering::Greater => meeting_within(image, range, job, gap, Side::First),
    }
}
