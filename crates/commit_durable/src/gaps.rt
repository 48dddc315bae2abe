// The gaps between a job's durable intervals, in a table. Some functions are lent the job only so that their contracts can
// say what its bytes mean.
ghost use Rattle.std.specs.Prelude.{◌<◌, ◌≤◌, length};
ghost use Rattle.format.specs.Range.{BoundInside, bound_in};
ghost use Rattle.incremental_progress.specs.Parts.{key_of};
ghost use Rattle.incremental_progress.specs.Gaps.{void, gap_to, last_gap, gap_from};
ghost use Rattle.commit_durable.specs.Answers.{start_in, StartInside, StartFound, GapsMade};
ghost use Rattle.commit_durable.specs.Tables.{PartsHold, GapHeld, GapsHold, GapFound};

use crate::durable::with_kind;
use crate::tables::part_at;
use comparable_range::{Kind, keyed};
use format::BoundSpan;
use format::span::RangeSpan;

const UNBOUNDED: BoundSpan = BoundSpan {
    kind: Kind::Unbounded,
    at: 0,
    len: 0,
};

// Where the next gap starts, if it is not void.
#[derive(Clone, Copy)]
pub struct GapStart {
    pub there: bool,
    pub bound: BoundSpan,
}

// A gap that nothing meets: it ends before the empty key.
fn void_gap(job: &[u8]) -> RangeSpan
    ensures { GapHeld job.now void result }
{
    RangeSpan {
        start: UNBOUNDED,
        end: BoundSpan {
            kind: Kind::Excluded,
            at: 0,
            len: 0,
        },
    }
}

// The gap up to an interval's start.
fn gap_to(job: &[u8], from: GapStart, start: BoundSpan) -> RangeSpan
    requires fact_1 { StartInside job.now from }
    requires fact_2 { BoundInside job.now start }
    ensures { GapHeld job.now (gap_to (start_in job.now from) (key_of (bound_in job.now start))) result }
{
    if from.there && keyed(start.kind) {
        RangeSpan {
            start: from.bound,
            end: with_kind(start, Kind::Excluded),
        }
    } else {
        void_gap(job)
    }
}

// The gap after the last interval.
fn last_gap(job: &[u8], from: GapStart) -> RangeSpan
    requires { StartInside job.now from }
    ensures { GapHeld job.now (last_gap (start_in job.now from)) result }
{
    if from.there {
        RangeSpan {
            start: from.bound,
            end: UNBOUNDED,
        }
    } else {
        void_gap(job)
    }
}

// Where the gap after an interval's end starts.
fn gap_from(job: &[u8], end: BoundSpan) -> GapStart
    requires { BoundInside job.now end }
    ensures { StartFound job.now (gap_from (key_of (bound_in job.now end))) result }
{
    GapStart {
        there: keyed(end.kind),
        bound: with_kind(end, Kind::Included),
    }
}

// The gaps of n parts, put into a table; answers how many there are: one before each interval and one after the last.
pub fn gaps_of(job: &[u8], parts: &[usize], n: usize, gaps: &mut [usize]) -> usize
    requires fact_1 { PartsHold job.now n parts.now }
    requires fact_2 { 390 ≤ length gaps.old }
    ensures { GapsMade job.now gaps.old gaps.new result }
{
    let mut made = 0;
    let mut from = GapStart {
        there: true,
        bound: UNBOUNDED,
    };
    for k in 0..n {
        let p = part_at(job, parts, n, k);
        if p.durable {
            let gap = gap_to(job, from, p.start);
            commit_rows::put_gap(gaps, made, gap.start, gap.end);
            from = gap_from(job, p.end);
            made += 1;
        }
    }
    let gap = last_gap(job, from);
    commit_rows::put_gap(gaps, made, gap.start, gap.end);
    made + 1
}

// Gap g. The number of gaps is for the contract too.
pub fn gap_at(job: &[u8], gaps: &[usize], m: usize, g: usize) -> RangeSpan
    requires fact_1 { GapsHold job.now m gaps.now }
    requires fact_2 { g < m }
    ensures { GapFound job.now g result }
{
    commit_rows::gap_row(gaps, g)
}
