// What of an output is published, and its row.
ghost use Rattle.std.specs.Prelude.{◌≡◌, ◌≤◌, length, drop};
ghost use Rattle.base.specs.Bytes.{Bytes};
ghost use Rattle.comparable_range.specs.Range.{non_empty, overlap};
ghost use Rattle.format.specs.Range.{BoundInside};
ghost use Rattle.records.specs.Layouts.{table};
ghost use Rattle.records.specs.Spans.{key_in, table_in, TableInside};
ghost use Rattle.records.specs.There.{TableThere};
ghost use Rattle.manifest.specs.Ranges.{own};
ghost use Rattle.incremental_progress.specs.Intervals.{to_range};
ghost use Rattle.incremental_progress.specs.Parts.{is_key};
ghost use Rattle.commit_durable.specs.Tables.{interval_in, open_in};
ghost use Rattle.commit_entries.specs.Planned.{PlanReady};
ghost use Rattle.commit_outputs.specs.Outputs.{IntervalHeld, published_as, output_row, entries_in, PlannedIn};

use commit_entries::{Plan, add_cut, add_row};
use commit_rows::{Form, PartSpan, Row};
use comparable_range::Kind;
use format::BoundSpan;
use format::span::RangeSpan;
use records::TableSpan;

// What is published of an output: nothing, all of it, or what lies in the interval.
#[derive(Clone, Copy)]
pub enum Published {
    Left,
    Whole,
    Cut,
}

// Whether something of an output lies in the interval.
fn some_inside(job: &[u8], t: TableSpan, h: PartSpan) -> bool
    requires fact_1 { TableInside job.now t }
    requires fact_2 { IntervalHeld job.now h }
    ensures { result ≡ non_empty (overlap (own (table_in job.now t)) (to_range (interval_in job.now h.start h.end))) }
{
    let own = RangeSpan {
        start: manifest::own_start(t),
        end: manifest::own_end(t),
    };
    let held = RangeSpan {
        start: h.start,
        end: h.end,
    };
    format::span::meets(job, own, job, held)
}

// Whether an output's last key is the key of a bound.
fn ends_at(job: &[u8], t: TableSpan, b: BoundSpan) -> bool
    requires fact_1 { TableInside job.now t }
    requires fact_2 { BoundInside job.now b }
    ensures { result ≡ is_key (table_in job.now t).last (key_in job.now b.at b.len) }
{
    let last = BoundSpan {
        kind: Kind::Included,
        at: t.last_at,
        len: t.last_len,
    };
    t.flagged && key::cmp(format::key_of(job, last), format::key_of(job, b)).is_eq()
}

// What is published of an output: if its part is not completed, the interval ends at the last written key, and the outputs
// that end there are cut.
fn published_as(job: &[u8], t: TableSpan, h: PartSpan) -> Published
    requires fact_1 { TableInside job.now t }
    requires fact_2 { IntervalHeld job.now h }
    ensures { result ≡ published_as (open_in job.now h) (interval_in job.now h.start h.end) (table_in job.now t) }
{
    if h.completed || !ends_at(job, t, h.end) {
        return Published::Whole;
    }
    if some_inside(job, t, h) {
        return Published::Cut;
    }
    Published::Left
}

// The row of an output that stands from one place to another. The bounds of one that is published whole are not read.
fn output_row(form: Form, h: PartSpan, bucket: usize, at: usize, past: usize) -> Row
    ensures { result ≡ output_row form h bucket at past }
{
    Row {
        form,
        bucket,
        at,
        past,
        start: h.start,
        end: h.end,
        ten: 0,
    }
}

// The output at a place of the job, in a bucket.
pub fn plan_output(
    job: &[u8],
    ids: &[u8],
    rows: &mut [usize],
    at: usize,
    t: TableSpan,
    h: PartSpan,
    bucket: usize,
    p: Plan,
) -> Plan
    requires job_len_bound_1 { length job.now ≤ 262144 }
    requires job_len_bound_2 { Bytes job.now }
    requires job_len_bound_3 { at ≤ length job.now }
    requires job_len_bound_4 { TableThere job.now (table.read (drop at job.now)) t }
    requires interval_held_1 { IntervalHeld job.now h }
    requires interval_held_2 { PlanReady ids.now 1099511627776 p }
    ensures { PlannedIn job.now ids.now (entries_in job.now h (table_in job.now t)) bucket p rows.old result rows.new }
{
    match published_as(job, t, h) {
        Published::Left => p,
        Published::Whole => {
            let row = output_row(Form::Output, h, bucket, at, t.past);
            add_row(rows, p, row)
        }
        Published::Cut => {
            let row = output_row(Form::CutOutput, h, bucket, at, t.past);
            add_cut(commit_ids::published_id(job, at), ids, rows, p, row)
        }
    }
}
