// The parts of a job, read once: the first of the checks 4, 5 and 7 that they fail, the checks 10 and 11, and a table of
// their durable intervals.
ghost use Rattle.std.specs.Prelude.{◌≡◌, ◌≤◌, ◌+◌, ◌*◌, length, drop};
ghost use Rattle.comparable_range.specs.Range.{non_empty};
ghost use Rattle.format.specs.Range.{BoundInside, bound_in, range_in};
ghost use Rattle.records.specs.Form.{read_many};
ghost use Rattle.records.specs.Layouts.{part};
ghost use Rattle.manifest.specs.Faults.{fault_of, planned};
ghost use Rattle.commit_durable.specs.Faults.{planned_after};
ghost use Rattle.commit_durable.specs.Answers.{half_open_kinds, cut_of, part_more, PartPassed, PartsPassed};

use crate::durable::row_of;
use crate::outputs::{Outputs, OutputsRead, outputs_read};
use comparable_range::Kind;
use format::span::RangeSpan;
use format::{BoundSpan, span};
use manifest::lesser;
use records::PartRead;

// Check 4 of a planned range: 4 if it fails, or 8.
fn planned_fault(job: &[u8], r: RangeSpan) -> u8
    requires fact_1 { BoundInside job.now r.start }
    requires fact_2 { BoundInside job.now r.end }
    ensures { result ≡ fault_of (planned (non_empty (range_in job.now r.start r.end))) }
{
    if span::passes(job, r.start, job, r.end) {
        8
    } else {
        4
    }
}

// Whether a planned range does not start excluded and does not end included.
pub fn half_open(start: Kind, end: Kind) -> bool
    ensures { result ≡ half_open_kinds start end }
{
    !matches!(start, Kind::Excluded) && !matches!(end, Kind::Included)
}

// Check 10 of one part. It does not begin before the end of the part before it exactly if the range from its start to that
// end fails `non_empty`.
fn planned_after(job: &[u8], first: bool, before: BoundSpan, r: RangeSpan) -> bool
    requires fact_1 { BoundInside job.now before }
    requires fact_2 { BoundInside job.now r.start }
    ensures { result ≡ planned_after (cut_of first (bound_in job.now before)) (range_in job.now r.start r.end) }
{
    half_open(r.start.kind, r.end.kind) && (first || !span::passes(job, r.start, job, before))
}

// Of the parts read so far: the place past them, the first of the checks 4, 5 and 7 that they fail or 8, whether they pass
// check 10 and check 11, and where the planned range of the last ends.
#[derive(Clone, Copy)]
pub struct PartsSeen {
    pub past: usize,
    pub fault: u8,
    pub planned: bool,
    pub inside: bool,
    pub end: BoundSpan,
}

// One part more, by its planned range and its outputs: it may begin where the one before it ends.
fn part_more(job: &[u8], first: bool, p: PartsSeen, planned: RangeSpan, o: Outputs) -> PartsSeen
    requires fact_1 { BoundInside job.now p.end }
    requires fact_2 { BoundInside job.now planned.start }
    requires fact_3 { BoundInside job.now planned.end }
    ensures { result ≡ part_more job.now first p planned o }
{
    PartsSeen {
        past: o.past,
        fault: lesser(p.fault, lesser(planned_fault(job, planned), o.fault)),
        planned: p.planned && planned_after(job, first, p.end, planned),
        inside: p.inside && o.inside,
        end: planned.end,
    }
}

#[derive(Clone, Copy)]
pub enum PartsJudged {
    Stop(u8),
    At(PartsSeen),
}

// The part after those seen, put into its row of the table.
fn part_read(job: &[u8], seen: usize, p: PartsSeen, parts: &mut [usize]) -> PartsJudged
    requires fact_1 { BoundInside job.now p.end }
    requires fact_2 { seen * 10 + 10 ≤ length parts.old }
    ensures { PartPassed job.now (part.read (drop p.past job.now)) seen p parts.old parts.new result }
{
    match records::part_at(job, p.past) {
        PartRead::Stop(k) => PartsJudged::Stop(k),
        PartRead::At {
            start,
            end,
            completed,
            outputs,
            next,
        } => {
            let planned = RangeSpan { start, end };
            match outputs_read(job, next, outputs, planned) {
                OutputsRead::Stop(k) => PartsJudged::Stop(k),
                OutputsRead::At(o) => {
                    let m = part_more(job, seen == 0, p, planned, o);
                    let row = row_of(job, planned, completed, outputs, next, o);
                    commit_rows::put_part(parts, seen, row);
                    PartsJudged::At(m)
                }
            }
        }
    }
}

// The n parts of a job, each put into a row of the table.
pub fn parts_read(job: &[u8], from: usize, n: usize, parts: &mut [usize]) -> PartsJudged
    requires fact_1 { from ≤ length job.now }
    requires fact_2 { n ≤ 64 }
    requires fact_3 { 640 ≤ length parts.old }
    ensures { PartsPassed job.now (read_many part.read n (drop from job.now)) n parts.old parts.new result }
{
    let mut p = PartsSeen {
        past: from,
        fault: 8,
        planned: true,
        inside: true,
        end: BoundSpan {
            kind: Kind::Unbounded,
            at: from,
            len: 0,
        },
    };
    for seen in 0..n {
        match part_read(job, seen, p, parts) {
            PartsJudged::Stop(k) => return PartsJudged::Stop(k),
            PartsJudged::At(m) => p = m,
        }
    }
    PartsJudged::At(p)
}
