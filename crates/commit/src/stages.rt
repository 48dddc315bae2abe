// The stages of a commit after the checks 1 to 7. Each table is lent by the stage before, which made it.
ghost use Rattle.std.specs.Prelude.{◌≡◌, ◌≤◌, length, replicate};
ghost use Rattle.base.specs.Outcome.{lent, reported};
ghost use Rattle.commit_plan.specs.Plans.{HeadHeld, GapsReady, OutputsPlanned};
ghost use Rattle.commit_index.specs.Index.{image_of, IndexHold};
ghost use Rattle.commit_durable.specs.Tables.{job_of, job_gaps, PartsHold};
ghost use Rattle.commit_covered.specs.Covered.{covered_by};
ghost use Rattle.commit_covered.specs.Kept.{Room};
ghost use Rattle.commit_covered.specs.Runs.{CoverReady};
ghost use Rattle.commit.specs.Stages.{planned_outcome, covered_outcome, applied_outcome, progress_fault, Read, StageHeld, HeadTold, Given, RowsEnough, rows_at_most};

use crate::rows::rows_at_most;
use crate::write::finish;
use base::Written;
use commit_covered::CoverHead;
use commit_durable::JobHead;
use commit_plan::PlanHead;

// The runs planned, and what follows.
fn plan_image<'a>(
    image: &'a [u8],
    job: &'a [u8],
    ids: &[u8],
    index: &[usize],
    gaps: &[usize],
    rows: &mut [usize],
    out: &mut [u8],
    head: PlanHead,
) -> Written
    requires read_1 { Read image.now job.now }
    requires read_2 { IndexHold image.now head.runs index.now }
    requires read_3 { HeadHeld job.now head }
    requires read_4 { GapsReady job.now gaps.now head }
    requires outputs_planned_1 { OutputsPlanned image.now job.now ids.now rows.old head.outputs }
    requires outputs_planned_2 { RowsEnough image.now job.now rows.old }
    ensures value { result ≡ reported (planned_outcome image.now job.now ids.now (length out.old)) }
    ensures out_after { out.new ≡ lent out.old (planned_outcome image.now job.now ids.now (length out.old)) }
{
    let mut runs = [0usize; 384];
    let a = commit_plan::plan_runs(image, job, ids, gaps, index, &mut runs, rows, head);
    finish(image, job, ids, &runs, rows, out, a)
}

// Check 12, with a table for the entries of the outputs' ids, of which few rows can hold few.
fn covered<'a>(
    image: &'a [u8],
    job: &'a [u8],
    index: &[usize],
    parts: &[usize],
    gaps: &[usize],
    rows: &mut [usize],
    head: CoverHead,
) -> bool
    requires { (CoverReady image.now job.now index.now gaps.now head) × ((PartsHold job.now head.parts parts.now) × (Room job.now rows.old)) }
    ensures value { result ≡ covered_by (job_gaps job.now) (image_of image.now) (job_of job.now) }
    ensures rows_len_unchanged { length rows.new ≡ length rows.old }
{
    if rows.len() <= 704 {
        let mut slots = [0usize; 64];
        return commit_covered::image_covered(
            image, job, index, parts, gaps, rows, &mut slots, head,
        );
    }
    let mut slots = [0usize; 1024];
    commit_covered::image_covered(image, job, index, parts, gaps, rows, &mut slots, head)
}

// The job's destination and its sources, which stand from a place on; how many parts it has, and how many runs the image.
#[derive(Clone, Copy)]
pub struct StageHead {
    pub destination: u64,
    pub sources: usize,
    pub from: usize,
    pub parts: usize,
    pub runs: usize,
}

// Check 12, and what follows. The table of rows serves for the outputs' ids before it holds rows.
fn cover_image<'a>(
    image: &'a [u8],
    job: &'a [u8],
    ids: &[u8],
    index: &[usize],
    parts: &[usize],
    rows: &mut [usize],
    out: &mut [u8],
    head: StageHead,
) -> Written
    requires fact_1 { Read image.now job.now }
    requires fact_2 { StageHeld image.now job.now index.now parts.now head }
    requires fact_3 { Room job.now rows.old }
    requires fact_4 { RowsEnough image.now job.now rows.old }
    ensures value { result ≡ reported (covered_outcome image.now job.now ids.now (length out.old)) }
    ensures out_after { out.new ≡ lent out.old (covered_outcome image.now job.now ids.now (length out.old)) }
{
    let mut gaps = [0usize; 390];
    let m = commit_durable::gaps_of(job, parts, head.parts, &mut gaps);
    let cover = CoverHead {
        destination: head.destination,
        parts: head.parts,
        gaps: m,
        runs: head.runs,
    };
    if !covered(image, job, index, parts, &gaps, rows, cover) {
        return Written::Stop(12);
    }
    let outputs = commit_outputs::plan_outputs(job, ids, parts, head.parts, rows);
    let plan = PlanHead {
        destination: head.destination,
        sources: head.sources,
        from: head.from,
        gaps: m,
        runs: head.runs,
        outputs,
    };
    plan_image(image, job, ids, index, &gaps, rows, out, plan)
}

// The same with a table of N places, which is long enough.
fn apply_with<'a, const N: usize>(
    image: &'a [u8],
    job: &'a [u8],
    ids: &[u8],
    index: &[usize],
    parts: &[usize],
    out: &mut [u8],
    head: StageHead,
) -> Written
    requires fact_1 { Read image.now job.now }
    requires fact_2 { StageHeld image.now job.now index.now parts.now head }
    requires fact_3 { N ≤ 12012 }
    requires fact_4 { Room job.now (replicate N 0) }
    requires fact_5 { RowsEnough image.now job.now (replicate N 0) }
    ensures value { result ≡ reported (covered_outcome image.now job.now ids.now (length out.old)) }
    ensures out_after { out.new ≡ lent out.old (covered_outcome image.now job.now ids.now (length out.old)) }
{
    let mut rows = [0usize; N];
    cover_image(image, job, ids, index, parts, &mut rows, out, head)
}

// The stages, with as many rows as they may need: to clear 12,012 numbers takes longer than a short commit.
fn apply_stages<'a>(
    image: &'a [u8],
    job: &'a [u8],
    ids: &[u8],
    index: &[usize],
    parts: &[usize],
    out: &mut [u8],
    head: StageHead,
) -> Written
    requires fact_1 { Read image.now job.now }
    requires fact_2 { StageHeld image.now job.now index.now parts.now head }
    requires fact_3 { length job.now ≤ 65536 }
    ensures value { result ≡ reported (covered_outcome image.now job.now ids.now (length out.old)) }
    ensures out_after { out.new ≡ lent out.old (covered_outcome image.now job.now ids.now (length out.old)) }
{
    if rows_at_most(image, job, index, parts, head.runs, head.parts) <= 64 {
        return apply_with::<704>(image, job, ids, index, parts, out, head);
    }
    apply_with::<12012>(image, job, ids, index, parts, out, head)
}

// The number of the first of the checks 8 to 11 that fails, or 12.
fn job_fault(image: &[u8], job: &[u8], index: &[usize], n: usize, head: JobHead) -> u8
    requires fact_1 { IndexHold image.now n index.now }
    requires fact_2 { HeadTold job.now head }
    ensures { result ≡ progress_fault (image_of image.now) (job_of job.now) }
{
    if !commit_durable::is_source(job, head.from, head.sources, head.destination) {
        return 8;
    }
    if !commit_index::sources_there(image, index, n, job, head.from, head.sources) {
        return 9;
    }
    head.late
}

// An image and a job that passed the checks 1 to 7, with the tables of n runs and of the job's parts.
pub fn apply<'a>(
    image: &'a [u8],
    job: &'a [u8],
    ids: &[u8],
    index: &[usize],
    parts: &[usize],
    out: &mut [u8],
    head: JobHead,
    n: usize,
) -> Written
    requires { Given image.now job.now index.now parts.now n head }
    ensures value { result ≡ reported (applied_outcome (image_of image.now) (job_of job.now) ids.now (length out.old)) }
    ensures out_after { out.new ≡ lent out.old (applied_outcome (image_of image.now) (job_of job.now) ids.now (length out.old)) }
{
    let fault = job_fault(image, job, index, n, head);
    if fault < 12 {
        return Written::Stop(fault);
    }
    let stage = StageHead {
        destination: head.destination,
        sources: head.sources,
        from: head.from,
        parts: head.parts,
        runs: n,
    };
    apply_stages(image, job, ids, index, parts, out, stage)
}
