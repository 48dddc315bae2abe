// A range's pieces in the gaps, one after the other.
ghost use Rattle.std.specs.Prelude.{◌≤◌, take};
ghost use Rattle.format.specs.Range.{BoundInside, bound_in, range_in};
ghost use Rattle.manifest.specs.Laws.{StartsHeld};
ghost use Rattle.commit_durable.specs.Tables.{job_gaps, GapsHold};
ghost use Rattle.commit_gaps.specs.Ordered.{Behind, GapsOrdered};
ghost use Rattle.commit_gaps.specs.Found.{Inside, Reached, NextFound};

use crate::piece::{Meeting, Piece, meet};
use format::span::RangeSpan;
use format::{BoundSpan, span};

// The first gap, from one on, that does not end before a start; m if there is none. Starts that ascend need not go back.
pub fn first_gap(
    image: &[u8],
    start: BoundSpan,
    job: &[u8],
    gaps: &[usize],
    m: usize,
    from: usize,
) -> usize
    requires fact_1 { BoundInside image.now start }
    requires fact_2 { GapsHold job.now m gaps.now }
    requires fact_3 { from ≤ m }
    requires fact_4 { Behind (bound_in image.now start) (take from (job_gaps job.now)) }
    ensures { Reached (bound_in image.now start) job.now m result }
{
    for g in from..m {
        let gap = commit_durable::gap_at(job, gaps, m, g);
        if span::passes(image, start, job, gap.end) {
            return g;
        }
    }
    m
}

// A piece of a range: the number of its gap and the gap's bounds, and the gap from which to go on, which is m if the range
// has ended.
#[derive(Clone, Copy)]
pub struct NextPiece {
    pub gap: usize,
    pub next: usize,
    pub bounds: RangeSpan,
    pub piece: Piece,
}

// The next piece from a gap on, if there is one.
pub fn next_piece<'a>(
    image: &'a [u8],
    range: RangeSpan,
    job: &'a [u8],
    gaps: &[usize],
    m: usize,
    from: usize,
) -> Option<NextPiece>
    requires fact_1 { Inside image.now range }
    requires fact_2 { StartsHeld (range_in image.now range.start range.end) }
    requires fact_3 { GapsHold job.now m gaps.now }
    requires fact_4 { GapsOrdered job.now }
    requires fact_5 { from ≤ m }
    ensures { NextFound job.now (range_in image.now range.start range.end) m from result }
{
    for g in from..m {
        let bounds = commit_durable::gap_at(job, gaps, m, g);
        match meet(image, range, job, bounds) {
            Meeting::Apart => {}
            Meeting::Past => return None,
            Meeting::Last(piece) => {
                return Some(NextPiece {
                    gap: g,
                    next: m,
                    bounds,
                    piece,
                });
            }
            Meeting::More(piece) => {
                return Some(NextPiece {
                    gap: g,
                    next: g + 1,
                    bounds,
                    piece,
                });
            }
        }
    }
    None
}
