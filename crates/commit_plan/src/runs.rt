// The pieces of a run's views.
ghost use Rattle.std.specs.Prelude.{◌≤◌, length};
ghost use Rattle.commit_durable.specs.Tables.{GapsHold};
ghost use Rattle.commit_gaps.specs.Ordered.{GapsOrdered};
ghost use Rattle.commit_entries.specs.Planned.{PlanReady};
ghost use Rattle.commit_plan.specs.Runs.{views_at, PlannedViews, RunReady};

use crate::held::view_held;
use crate::views::plan_view;
use commit_entries::Plan;
use commit_index::IndexedRun;

// View starts ascend in a run, so the first gap that a view can reach never goes back.
pub fn plan_run<'a>(
    image: &'a [u8],
    job: &'a [u8],
    ids: &[u8],
    gaps: &[usize],
    m: usize,
    rows: &mut [usize],
    run: IndexedRun,
    p: Plan,
) -> Plan
    requires run_ready_1 { RunReady image.now run.first run.views }
    requires run_ready_2 { length job.now ≤ 262144 }
    requires gaps_hold_1 { GapsHold job.now m gaps.now }
    requires gaps_hold_2 { GapsOrdered job.now }
    requires gaps_hold_3 { PlanReady ids.now 274877906944 p }
    ensures { PlannedViews image.now job.now ids.now (views_at image.now run.first run.views) p rows.old result rows.new }
{
    let mut at = run.first;
    let mut from = 0;
    let mut plan = p;
    for _ in 0..run.views {
        let h = view_held(image, at, job, gaps, m, from);
        plan = plan_view(image, job, ids, gaps, m, rows, h, plan);
        from = h.gap;
        at = h.past;
    }
    plan
}
