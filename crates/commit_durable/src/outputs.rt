// The outputs of a part, read once: the first of the checks 5 and 7 that they fail, check 11, and the last written key.
ghost use Rattle.std.specs.Prelude.{◌≡◌, ◌≤◌, length, drop};
ghost use Rattle.comparable_range.specs.Cut.{start_cut, end_cut};
ghost use Rattle.format.specs.Range.{BoundInside, bound_in};
ghost use Rattle.records.specs.Form.{read_many};
ghost use Rattle.records.specs.Layouts.{table};
ghost use Rattle.records.specs.Spans.{table_in, TableInside};
ghost use Rattle.manifest.specs.Faults.{fault_of, table_checks};
ghost use Rattle.commit_durable.specs.Faults.{output_between};
ghost use Rattle.commit_durable.specs.Answers.{output_more, OutputsPassed};

use format::span::RangeSpan;
use format::{BoundSpan, span};
use manifest::{keys_in_order, lesser, own_end, own_start, size_passes};
use records::{TableRead, TableSpan};

// The number of the first check of 5 and 7 that a table fails, or 8.
fn table_fault(job: &[u8], t: TableSpan) -> u8
    requires { TableInside job.now t }
    ensures { result ≡ fault_of (table_checks (table_in job.now t)) }
{
    if !keys_in_order(job, t) {
        5
    } else if !size_passes(t.index_offset, t.index_len) {
        7
    } else {
        8
    }
}

// Check 11 of one output: its first key lies at or after a start, its last key at or before an end, and it has a last key.
fn output_between(job: &[u8], start: BoundSpan, end: BoundSpan, t: TableSpan) -> bool
    requires fact_1 { BoundInside job.now start }
    requires fact_2 { BoundInside job.now end }
    requires fact_3 { TableInside job.now t }
    ensures { result ≡ output_between (end_cut (bound_in job.now end)) (start_cut (bound_in job.now start)) (table_in job.now t) }
{
    span::compare(job, start, job, own_start(t), true).is_le()
        && span::compare(job, own_end(t), job, end, false).is_le()
        && t.flagged
}

// Of the outputs read so far: the place past them, the first of the checks 5 and 7 that they fail or 8, whether they pass
// check 11, and where the last key of the last one stands, if there is one.
#[derive(Clone, Copy)]
pub struct Outputs {
    pub past: usize,
    pub fault: u8,
    pub inside: bool,
    pub there: bool,
    pub at: usize,
    pub len: usize,
}

// One output more: it may start where the one before it ends.
fn output_more(job: &[u8], o: Outputs, before: BoundSpan, end: BoundSpan, t: TableSpan) -> Outputs
    requires fact_1 { BoundInside job.now before }
    requires fact_2 { BoundInside job.now end }
    requires fact_3 { TableInside job.now t }
    ensures { result ≡ output_more job.now o before end t }
{
    Outputs {
        past: t.past,
        fault: lesser(o.fault, table_fault(job, t)),
        inside: o.inside && output_between(job, before, end, t),
        there: t.flagged,
        at: t.last_at,
        len: t.last_len,
    }
}

#[derive(Clone, Copy)]
pub enum OutputsRead {
    Stop(u8),
    At(Outputs),
}

// The n outputs of a part with a planned range.
pub fn outputs_read(job: &[u8], from: usize, n: usize, planned: RangeSpan) -> OutputsRead
    requires fact_1 { from ≤ length job.now }
    requires fact_2 { BoundInside job.now planned.start }
    requires fact_3 { BoundInside job.now planned.end }
    ensures { OutputsPassed job.now (read_many table.read n (drop from job.now)) planned result }
{
    let mut before = planned.start;
    let mut o = Outputs {
        past: from,
        fault: 8,
        inside: true,
        there: false,
        at: from,
        len: 0,
    };
    for _ in 0..n {
        match records::table_at(job, o.past) {
            TableRead::Stop(k) => return OutputsRead::Stop(k),
            TableRead::At(t) => {
                o = output_more(job, o, before, planned.end, t);
                before = own_end(t);
            }
        }
    }
    OutputsRead::At(o)
}
