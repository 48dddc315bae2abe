// What a lookup in an image is given: the image and the asked range, read and checked.
ghost use Rattle.db_state.specs.LookupCalls.{image_and_range};
ghost use Rattle.sst_view.specs.Asked.{range_asked, RangeChecked, AskedFound, image_end_and_range, EndFound};

use format::span::RangeSpan;
use format::{BoundSpan, Given, RangeRead};
use manifest::Judged;

// The asked range, where it stands, or the number of the stop.
#[derive(Clone, Copy)]
pub enum Asked {
    Range(RangeSpan),
    Stop(u8),
}

// The asked range, after an image of which a number is the first of the checks 4 to 7 that fails, or 8: check 4 covers both
// before the others.
pub fn range_asked(range: &[u8], fault: u8) -> Asked
    ensures { RangeChecked range.now (range_asked fault range.now) result }
{
    match format::range_whole(range) {
        RangeRead::Stop(k) => Asked::Stop(k),
        RangeRead::At {
            start,
            end,
            next: _,
        } => {
            if format::span::passes(range, start, range, end) {
                if fault < 8 {
                    return Asked::Stop(fault);
                }
                return Asked::Range(RangeSpan { start, end });
            }
            Asked::Stop(4)
        }
    }
}

// An image and an asked range.
pub fn image_and_range(image: &[u8], range: &[u8]) -> Asked
    ensures { AskedFound image.now range.now (image_and_range image.now range.now) result }
{
    match manifest::image_judged(image) {
        Judged::Stop(k) => Asked::Stop(k),
        Judged::At { next: _, fault } => range_asked(range, fault),
    }
}

// An end bound and the asked range, where they stand, or the number of the stop.
#[derive(Clone, Copy)]
pub enum EndAsked {
    At(BoundSpan, RangeSpan),
    Stop(u8),
}

// An image, an end bound given by its kind and its key, and an asked range.
pub fn image_end_and_range(image: &[u8], kind: u8, end: &[u8], range: &[u8]) -> EndAsked
    ensures { EndFound image.now end.now range.now (image_end_and_range image.now kind end.now range.now) result }
{
    match manifest::image_judged(image) {
        Judged::Stop(k) => EndAsked::Stop(k),
        Judged::At { next: _, fault } => match format::bound_given(kind, end) {
            Given::Stop(k) => EndAsked::Stop(k),
            Given::Bound(kind) => match range_asked(range, fault) {
                Asked::Stop(k) => EndAsked::Stop(k),
                Asked::Range(r) => EndAsked::At(
                    BoundSpan {
                        kind,
                        at: 0,
                        len: end.len(),
                    },
                    r,
                ),
            },
        },
    }
}
