// `sample_anchors` of subcompaction.rs: the anchors of a table, from the blocks of its index.
#![tactic(auto)]

mod put;

ghost use Rattle.std.specs.Prelude.{◌≡◌, ◌≤◌, T, length, drop};
ghost use Rattle.base.specs.Outcome.{lent, reported, written_to};
ghost use Rattle.format.specs.Got.{is_got};
ghost use Rattle.format.specs.Range.{BoundInside};
ghost use Rattle.records.specs.Layouts.{index, anchors};
ghost use Rattle.subcompaction.specs.PlanCalls.{sample_anchors_outcome};
ghost use Rattle.sampled.specs.Groups.{sampled_there};

use base::Written;
use format::span::RangeSpan;
use format::{RangeRead, span};
use manifest::Judged;
use put::anchors_written;
use sampled::{Kept, Sampling, sample};

// The anchors sampled, written into a buffer. They are at most N: the tables that they stand in on the way have a row for each.
#[tactic(auto, using(crate::proofs::CallExits::answered_exits))]
fn answered<const N: usize>(
    s: &[u8],
    ask: Sampling,
    within: &[u8],
    range: RangeSpan,
    out: &mut [u8],
) -> Written
    requires t_1 { T (is_got (index.read (drop ask.at s.now))) }
    requires t_2 { BoundInside within.now range.start }
    requires t_3 { BoundInside within.now range.end }
    requires most_bound { ask.most ≤ 4096 }
    requires rows_1 { length (sampled_there s.now ask within.now range) ≤ N }
    requires rows_2 { N ≤ 4096 }
    ensures value { result ≡ reported (written_to (length out.old) (anchors.write (sampled_there s.now ask within.now range))) }
    ensures out_after { out.new ≡ lent out.old (written_to (length out.old) (anchors.write (sampled_there s.now ask within.now range))) }
{
    let mut keys = [0usize; N];
    let mut bytes = [0u64; N];
    let none = Kept { rows: 0, total: 0 };
    let kept = sample(s, ask, within, range, &mut keys, &mut bytes, none);
    anchors_written(s, &keys, &bytes, kept.rows, out)
}

// The same: of a short index with small tables, since clearing them takes time.
#[tactic(auto, using(crate::proofs::CallExits::tables_exits))]
fn answered_from(
    s: &[u8],
    ask: Sampling,
    within: &[u8],
    range: RangeSpan,
    out: &mut [u8],
) -> Written
    requires t_1 { T (is_got (index.read (drop ask.at s.now))) }
    requires t_2 { BoundInside within.now range.start }
    requires t_3 { BoundInside within.now range.end }
    requires most_bound { ask.most ≤ 4096 }
    ensures value { result ≡ reported (written_to (length out.old) (anchors.write (sampled_there s.now ask within.now range))) }
    ensures out_after { out.new ≡ lent out.old (written_to (length out.old) (anchors.write (sampled_there s.now ask within.now range))) }
{
    if format::number_there(s, ask.at, 2) <= 64 {
        answered::<64>(s, ask, within, range, out)
    } else {
        answered::<4096>(s, ask, within, range, out)
    }
}

// At most so many anchors of a table, by its index and where its data end: those whose key a range holds.
#[tactic(auto, using(crate::proofs::CallExits::call_exits))]
pub fn sample_anchors(
    most: usize,
    data_end: u64,
    index: &[u8],
    range: &[u8],
    out: &mut [u8],
) -> Written
    ensures value { result ≡ reported (sample_anchors_outcome most data_end index.now range.now (length out.old)) }
    ensures out_after { out.new ≡ lent out.old (sample_anchors_outcome most data_end index.now range.now (length out.old)) }
{
    if 4096 < most {
        return Written::Stop(3);
    }
    match manifest::index_judged(index) {
        Judged::Stop(k) => Written::Stop(k),
        Judged::At { next: _, fault } => match format::range_whole(range) {
            RangeRead::Stop(k) => Written::Stop(k),
            RangeRead::At {
                start,
                end,
                next: _,
            } => {
                if !span::passes(range, start, range, end) {
                    return Written::Stop(4);
                }
                if fault < 8 {
                    return Written::Stop(6);
                }
                let ask = Sampling {
                    at: 0,
                    most,
                    data_end,
                };
                answered_from(index, ask, range, RangeSpan { start, end }, out)
            }
        },
    }
}
