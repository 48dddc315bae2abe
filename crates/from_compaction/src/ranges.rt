// The durable intervals of a job's parts, as ranges: measured, and written into a lent buffer.
ghost use Rattle.std.specs.Prelude.{◌≡◌, ◌≤◌, ◌+◌, length};
ghost use Rattle.base.specs.Outcome.{lent, reported, written_to};
ghost use Rattle.format.specs.Range.{BoundInside, range_in, write_range};
ghost use Rattle.records.specs.Layouts.{plan};
ghost use Rattle.commit_durable.specs.Tables.{PartsHold};
ghost use Rattle.range_write.specs.Put.{Put};
ghost use Rattle.from_compaction.specs.Ranges.{job_ranges, ranges_bytes, Sized, Measured};

use base::Written;
use commit_durable::part_at;
use commit_rows::PartSpan;
use format::key_of;

// How many bytes the range of a part takes.
fn part_size(job: &[u8], p: PartSpan) -> usize
    requires fact_1 { BoundInside job.now p.start }
    requires fact_2 { BoundInside job.now p.end }
    requires fact_3 { length job.now ≤ 65536 }
    ensures { Sized (range_in job.now p.start p.end) result }
{
    let start = key_of(job, p.start);
    let end = key_of(job, p.end);
    range_write::range_size(p.start.kind, start, p.end.kind, end)
}

// The range of a part. Answers the place past what was put.
fn put_part(job: &[u8], p: PartSpan, out: &mut [u8], to: usize) -> usize
    requires fact_1 { BoundInside job.now p.start }
    requires fact_2 { BoundInside job.now p.end }
    requires fact_3 { to + length (write_range (range_in job.now p.start p.end)) ≤ length out.old }
    ensures { Put out.old to (write_range (range_in job.now p.start p.end)) out.new result }
{
    let start = key_of(job, p.start);
    let end = key_of(job, p.end);
    range_write::put_range(p.start.kind, start, p.end.kind, end, out, to)
}

// How many parts have a durable interval, and how many bytes its ranges take.
#[derive(Clone, Copy)]
pub struct Measure {
    pub count: usize,
    pub bytes: usize,
}

fn measured(job: &[u8], parts: &[usize], n: usize) -> Measure
    requires fact_1 { PartsHold job.now n parts.now }
    requires fact_2 { length job.now ≤ 65536 }
    ensures { Measured job.now result }
{
    let mut count = 0;
    let mut bytes = 0;
    for k in 0..n {
        let p = part_at(job, parts, n, k);
        if p.durable {
            count += 1;
            bytes += part_size(job, p);
        }
    }
    Measure { count, bytes }
}

// The ranges one after another, from a place on. Answers the place past them.
fn put_ranges(job: &[u8], parts: &[usize], n: usize, out: &mut [u8], first: usize) -> usize
    requires fact_1 { PartsHold job.now n parts.now }
    requires fact_2 { first + length (ranges_bytes (job_ranges job.now)) ≤ length out.old }
    ensures { Put out.old first (ranges_bytes (job_ranges job.now)) out.new result }
{
    let mut to = first;
    for k in 0..n {
        let p = part_at(job, parts, n, k);
        if p.durable {
            to = put_part(job, p, out, to);
        }
    }
    to
}

// Check 16, and then the ranges with their count.
pub fn write_ranges(job: &[u8], parts: &[usize], n: usize, out: &mut [u8]) -> Written
    requires fact_1 { PartsHold job.now n parts.now }
    requires fact_2 { length job.now ≤ 65536 }
    ensures value { result ≡ reported (written_to (length out.old) (plan.write (job_ranges job.now))) }
    ensures out_after { out.new ≡ lent out.old (written_to (length out.old) (plan.write (job_ranges job.now))) }
{
    let m = measured(job, parts, n);
    let bytes = 1 + m.bytes;
    if out.len() < bytes {
        return Written::Stop(16);
    }
    format::put_number(out, 0, m.count as u64, 1);
    put_ranges(job, parts, n, out, 1);
    Written::Wrote(bytes)
}
