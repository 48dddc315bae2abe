// The runs of the image planned, after the outputs: what is left of each source, and how large the new image is.
ghost use Rattle.std.specs.Prelude.{◌≡◌, ◌≤◌, ◌+◌, ◌*◌, length};
ghost use Rattle.commit_index.specs.Index.{IndexHold};
ghost use Rattle.commit_entries.specs.Planned.{PlanReady};
ghost use Rattle.commit_plan.specs.Runs.{RunReady};
ghost use Rattle.commit_plan.specs.Plans.{HeadHeld, GapsReady, RunPlannedMore, size_by, SizeReady, CountReady, RunCounted, ImagePassed, OutputsPlanned, CommitPlanned};

use crate::runs::plan_run;
use commit_entries::Plan;
use commit_index::IndexedRun;
use commit_rows::{RunKind, RunRow};

// What the runs are planned with: the job's destination and its sources, which stand from a place on, how many gaps it has, and its
// outputs, which are planned; and how many runs the image has.
#[derive(Clone, Copy)]
pub struct PlanHead {
    pub destination: u64,
    pub sources: usize,
    pub from: usize,
    pub gaps: usize,
    pub runs: usize,
    pub outputs: Plan,
}

// All rows, how many of them are outputs, how many bytes the new image takes, and whether each of its runs is within the ceiling.
#[derive(Clone, Copy)]
pub struct ImagePlan {
    pub plan: Plan,
    pub outputs: usize,
    pub bytes: usize,
    pub fits: bool,
}

// The kind of a run, and the plan after its rows.
#[derive(Clone, Copy)]
pub struct RunPlanned {
    pub kind: RunKind,
    pub plan: Plan,
}

// One run: the views of a source are cut, any other's stay.
fn plan_one<'a>(
    image: &'a [u8],
    job: &'a [u8],
    ids: &[u8],
    gaps: &[usize],
    rows: &mut [usize],
    run: IndexedRun,
    head: PlanHead,
    p: Plan,
) -> RunPlanned
    requires fact_1 { RunReady image.now run.first run.views }
    requires fact_2 { HeadHeld job.now head }
    requires fact_3 { GapsReady job.now gaps.now head }
    requires fact_4 { PlanReady ids.now 274877906944 p }
    ensures { RunPlannedMore image.now job.now ids.now run p rows.old result rows.new }
{
    let kind = if run.id == head.destination {
        RunKind::Destination
    } else if commit_durable::is_source(job, head.from, head.sources, run.id) {
        RunKind::Source
    } else {
        return RunPlanned {
            kind: RunKind::Other,
            plan: p,
        };
    };
    let plan = plan_run(image, job, ids, gaps, head.gaps, rows, run, p);
    RunPlanned { kind, plan }
}

// How many views and bytes a run has afterwards.
#[derive(Clone, Copy)]
pub struct RunSize {
    pub views: usize,
    pub bytes: usize,
}

// The size of a run whose rows were planned from one plan to another.
fn run_size(run: IndexedRun, kind: RunKind, p: Plan, q: Plan, outputs: Plan) -> RunSize
    requires { SizeReady run p q outputs }
    ensures { result ≡ size_by kind run p q outputs }
{
    let views = q.rows - p.rows;
    let bytes = q.bytes - p.bytes;
    match kind {
        RunKind::Other => RunSize {
            views: run.views,
            bytes: run.past - run.first,
        },
        RunKind::Source => RunSize { views, bytes },
        RunKind::Destination => RunSize {
            views: views + outputs.rows,
            bytes: bytes + outputs.bytes,
        },
    }
}

// A run counted, and put into the table of runs with its rows.
fn count_run(
    runs: &mut [usize],
    k: usize,
    run: IndexedRun,
    one: RunPlanned,
    a: ImagePlan,
    outputs: Plan,
) -> ImagePlan
    requires fact_1 { k * 6 + 6 ≤ length runs.old }
    requires fact_2 { CountReady run a one outputs }
    ensures { RunCounted k run one a outputs runs.old result runs.new }
{
    let size = run_size(run, one.kind, a.plan, one.plan, outputs);
    let row = RunRow {
        id: run.id as usize,
        views: run.views,
        first: run.first,
        past: run.past,
        kind: one.kind,
        rows: one.plan.rows - a.plan.rows,
    };
    commit_rows::put_run_row(runs, k, row);
    ImagePlan {
        plan: one.plan,
        outputs: a.outputs,
        bytes: a.bytes + 6 + size.bytes,
        fits: a.fits && size.views <= 1024,
    }
}

// All runs, in the image's order.
pub fn plan_runs<'a>(
    image: &'a [u8],
    job: &'a [u8],
    ids: &[u8],
    gaps: &[usize],
    index: &[usize],
    runs: &mut [usize],
    rows: &mut [usize],
    head: PlanHead,
) -> ImagePlan
    requires index_hold_1 { IndexHold image.now head.runs index.now }
    requires index_hold_2 { ImagePassed image.now }
    requires index_hold_3 { HeadHeld job.now head }
    requires index_hold_4 { GapsReady job.now gaps.now head }
    requires outputs_planned_1 { OutputsPlanned image.now job.now ids.now rows.old head.outputs }
    requires outputs_planned_2 { 384 ≤ length runs.old }
    ensures commit_planned { CommitPlanned image.now job.now ids.now rows.new runs.new result }
    ensures rows_len_unchanged { length rows.new ≡ length rows.old }
{
    let outputs = head.outputs;
    let mut a = ImagePlan {
        plan: outputs,
        outputs: outputs.rows,
        bytes: 1,
        fits: true,
    };
    for k in 0..head.runs {
        let run = commit_index::indexed_run(image, index, head.runs, k);
        let one = plan_one(image, job, ids, gaps, rows, run, head, a.plan);
        a = count_run(runs, k, run, one, a, outputs);
    }
    a
}
