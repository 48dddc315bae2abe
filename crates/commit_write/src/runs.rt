// The new image, run by run.
ghost use Rattle.std.specs.Prelude.{◌≡◌, ◌≤◌, ◌+◌, length};
ghost use Rattle.base.specs.Splice.{splice};
ghost use Rattle.range_write.specs.Put.{Put};
ghost use Rattle.commit_write.specs.Runs.{head_bytes, run_at, planned_image, Writable, RunWritable};

use crate::destination::place_rows;
use crate::rows::put_rows;
use crate::views::put_part;
use commit_rows::{RunKind, RunRow};

// How many runs there are, and how many outputs go into the destination.
#[derive(Clone, Copy)]
pub struct Counts {
    pub runs: usize,
    pub outputs: usize,
}

// How far the plan is written: how many outputs there are, the first row of the next run, and where it goes.
#[derive(Clone, Copy)]
pub struct Reached {
    pub outputs: usize,
    pub row: usize,
    pub to: usize,
}

// A run's id and the number of its views.
fn put_head(out: &mut [u8], to: usize, id: usize, count: usize) -> usize
    requires fact_1 { count ≤ 1024 }
    requires fact_2 { to + 6 ≤ length out.old }
    ensures { Put out.old to (head_bytes id count) out.new result }
{
    format::put_number(out, to, id as u64, 4);
    format::put_number(out, to + 4, (count * 16) as u64, 2);
    to + 6
}

// A run: one that the commit leaves as it is in one copy, a source as what is left of its views, and the
// destination as what is left of its views and the outputs between them.
fn put_run<'a>(
    image: &'a [u8],
    job: &'a [u8],
    ids: &[u8],
    rows: &[usize],
    order: &mut [usize],
    r: RunRow,
    at: Reached,
    out: &mut [u8],
) -> usize
    requires { RunWritable image.now job.now ids.now rows.now order.old r at out.old }
    ensures put { Put out.old at.to (run_at image.now job.now ids.now rows.now r at) out.new result }
    ensures order_len_unchanged { length order.new ≡ length order.old }
{
    match r.kind {
        RunKind::Other => put_part(image, r.first - 6, r.past, out, at.to),
        RunKind::Source => {
            let to = put_head(out, at.to, r.id, r.rows);
            put_rows(image, job, ids, rows, at.row..at.row + r.rows, out, to)
        }
        RunKind::Destination => {
            let n = at.outputs + r.rows;
            let to = put_head(out, at.to, r.id, n);
            place_rows(rows, at.outputs, at.row, r.rows, order);
            put_rows(image, job, ids, rows, order[..n].iter().copied(), out, to)
        }
    }
}

// The whole image: the number of runs, and the runs one after another. The places of out past it stay.
pub fn put_image<'a>(
    image: &'a [u8],
    job: &'a [u8],
    ids: &[u8],
    runs: &[usize],
    rows: &[usize],
    order: &mut [usize],
    out: &mut [u8],
    c: Counts,
)
    requires { Writable image.now job.now ids.now runs.now rows.now order.old c out.old }
    ensures { out.new ≡ splice out.old 0 (planned_image image.now job.now ids.now runs.now rows.now c) }
{
    let n = c.runs;
    let m = c.outputs;
    format::put_number(out, 0, n as u64, 1);
    let mut row = m;
    let mut to = 1;
    for k in 0..n {
        let r = commit_rows::run_row(runs, k);
        let at = Reached {
            outputs: m,
            row,
            to,
        };
        to = put_run(image, job, ids, rows, order, r, at, out);
        row += r.rows;
    }
}
