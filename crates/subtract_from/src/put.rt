// Parts that stand in two slices, measured and written as a plan into a lent buffer.
ghost use Rattle.std.specs.Prelude.{◌≡◌, ◌≤◌, ◌+◌, length};
ghost use Rattle.base.specs.Outcome.{over, lent, reported, written_to};
ghost use Rattle.format.specs.Span.{MetInside};
ghost use Rattle.records.specs.Layouts.{plan};
ghost use Rattle.range_write.specs.Put.{Put};
ghost use Rattle.subtract_from.specs.Found.{part_in, part_bytes, part_count, parts_in};

use base::Written;
use format::span::{JointSpan, supplied_key};

// How many bytes a part takes, if there is one. Its bounds stand in two slices: a job's part, as from_compaction measures it,
// stands in one and is always there, so that the two have no contract in common.
fn part_size<'a>(a: &'a [u8], b: &'a [u8], m: Option<JointSpan>) -> usize
    requires fact_1 { MetInside a.now b.now m }
    requires fact_2 { length a.now ≤ 65536 }
    requires fact_3 { length b.now ≤ 65536 }
    ensures { (result ≡ length (part_bytes (part_in a.now b.now m))) × (result ≤ 131077) }
{
    match m {
        None => 0,
        Some(j) => {
            let start = supplied_key(a, b, j.start);
            let end = supplied_key(a, b, j.end);
            range_write::range_size(j.start.bound.kind, start, j.end.bound.kind, end)
        }
    }
}

// Puts it, and answers the place past it.
fn put_part<'a>(a: &'a [u8], b: &'a [u8], m: Option<JointSpan>, out: &mut [u8], to: usize) -> usize
    requires fact_1 { MetInside a.now b.now m }
    requires fact_2 { to + length (part_bytes (part_in a.now b.now m)) ≤ length out.old }
    ensures { Put out.old to (part_bytes (part_in a.now b.now m)) out.new result }
{
    match m {
        None => to,
        Some(j) => {
            let start = supplied_key(a, b, j.start);
            let end = supplied_key(a, b, j.end);
            range_write::put_range(j.start.bound.kind, start, j.end.bound.kind, end, out, to)
        }
    }
}

fn part_count(m: Option<JointSpan>) -> u64
    ensures { (result ≡ part_count m) × (result ≤ 1) }
{
    match m {
        None => 0,
        Some(_) => 1,
    }
}

// The count of two parts, and those of them that there are.
fn put_parts<'a>(
    a: &'a [u8],
    b: &'a [u8],
    before: Option<JointSpan>,
    from: Option<JointSpan>,
    out: &mut [u8],
)
    requires met_inside_1 { MetInside a.now b.now before }
    requires met_inside_2 { MetInside a.now b.now from }
    requires from_in_bounds { length (plan.write (parts_in a.now b.now before from)) ≤ length out.old }
    ensures { out.new ≡ over (plan.write (parts_in a.now b.now before from)) out.old }
{
    format::put_number(out, 0, part_count(before) + part_count(from), 1);
    let to = put_part(a, b, before, out, 1);
    put_part(a, b, from, out, to);
}

// The same if out has room for them.
pub fn parts_written<'a>(
    a: &'a [u8],
    b: &'a [u8],
    before: Option<JointSpan>,
    from: Option<JointSpan>,
    out: &mut [u8],
) -> Written
    requires fact_1 { MetInside a.now b.now before }
    requires fact_2 { MetInside a.now b.now from }
    requires fact_3 { length a.now ≤ 65536 }
    requires fact_4 { length b.now ≤ 65536 }
    ensures value { result ≡ reported (written_to (length out.old) (plan.write (parts_in a.now b.now before from))) }
    ensures out_after { out.new ≡ lent out.old (written_to (length out.old) (plan.write (parts_in a.now b.now before from))) }
{
    let size = 1 + part_size(a, b, before) + part_size(a, b, from);
    if out.len() < size {
        return Written::Stop(16);
    }
    put_parts(a, b, before, from, out);
    Written::Wrote(size)
}
