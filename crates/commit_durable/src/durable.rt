// What of a part is durable.
ghost use Rattle.std.specs.Prelude.{◌≡◌, take, drop};
ghost use Rattle.format.specs.Range.{BoundInside, bound_in};
ghost use Rattle.incremental_progress.specs.Parts.{key_of, is_key};
ghost use Rattle.commit_durable.specs.Answers.{last_in, LastInside, with_kind, RowMade};

use crate::outputs::Outputs;
use commit_rows::PartSpan;
use comparable_range::{Kind, keyed};
use format::BoundSpan;
use format::span::RangeSpan;

// A bound with a key gets this kind; an unbounded one stays.
pub fn with_kind(b: BoundSpan, kind: Kind) -> BoundSpan
    ensures { result ≡ with_kind kind b }
{
    if keyed(b.kind) {
        BoundSpan { kind, ..b }
    } else {
        b
    }
}

// Whether a bound's key, if it has one, is another's.
fn is_key(job: &[u8], b: BoundSpan, k: BoundSpan) -> bool
    requires fact_1 { BoundInside job.now b }
    requires fact_2 { BoundInside job.now k }
    ensures { result ≡ is_key (key_of (bound_in job.now b)) (take k.len (drop k.at job.now)) }
{
    keyed(b.kind) && key::cmp(format::key_of(job, b), format::key_of(job, k)).is_eq()
}

// The row of a part. Completed, all that was planned is durable; or else what lies before the last written key, if that is
// not the start.
pub fn row_of(
    job: &[u8],
    planned: RangeSpan,
    completed: bool,
    outputs: usize,
    first: usize,
    o: Outputs,
) -> PartSpan
    requires fact_1 { BoundInside job.now planned.start }
    requires fact_2 { BoundInside job.now planned.end }
    requires fact_3 { LastInside job.now o }
    ensures { RowMade job.now planned completed outputs first (last_in job.now o) result }
{
    let start = with_kind(planned.start, Kind::Included);
    if completed {
        return PartSpan {
            durable: true,
            completed,
            outputs,
            first,
            start,
            end: with_kind(planned.end, Kind::Excluded),
        };
    }
    let end = BoundSpan {
        kind: Kind::Excluded,
        at: o.at,
        len: o.len,
    };
    PartSpan {
        durable: o.there && !is_key(job, planned.start, end),
        completed,
        outputs,
        first,
        start,
        end,
    }
}
