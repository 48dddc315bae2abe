// The outputs of a part, and of all parts.
ghost use Rattle.std.specs.Prelude.{◌≤◌, length};
ghost use Rattle.base.specs.Bytes.{Bytes};
ghost use Rattle.commit_durable.specs.Tables.{PartsHold};
ghost use Rattle.commit_entries.specs.Planned.{PlanReady};
ghost use Rattle.commit_outputs.specs.Outputs.{IntervalHeld, OutputsThere, outputs_in, PlannedIn, PlannedOutputs};

use crate::output::plan_output;
use commit_entries::Plan;
use commit_rows::PartSpan;

// The outputs of a part that has a durable interval, in a bucket.
fn plan_part(
    job: &[u8],
    ids: &[u8],
    rows: &mut [usize],
    h: PartSpan,
    bucket: usize,
    p: Plan,
) -> Plan
    requires fact_1 { length job.now ≤ 262144 }
    requires fact_2 { Bytes job.now }
    requires fact_3 { IntervalHeld job.now h }
    requires fact_4 { OutputsThere job.now h }
    requires fact_5 { PlanReady ids.now 549755813888 p }
    ensures { PlannedIn job.now ids.now (outputs_in job.now h) bucket p rows.old result rows.new }
{
    let mut at = h.first;
    let mut plan = p;
    for _ in 0..h.outputs {
        let t = records::table_there(job, at);
        plan = plan_output(job, ids, rows, at, t, h, bucket, plan);
        at = t.past;
    }
    plan
}

// The outputs of all parts that have a durable interval; interval i's come after gap i.
pub fn plan_outputs(job: &[u8], ids: &[u8], parts: &[usize], n: usize, rows: &mut [usize]) -> Plan
    requires fact_1 { length job.now ≤ 262144 }
    requires fact_2 { Bytes job.now }
    requires fact_3 { PartsHold job.now n parts.now }
    ensures { PlannedOutputs job.now ids.now rows.old result rows.new }
{
    let mut interval = 0;
    let mut plan = Plan {
        rows: 0,
        bytes: 0,
        cuts: 0,
        drawn: 0,
        enough: true,
    };
    for k in 0..n {
        let h = commit_durable::part_at(job, parts, n, k);
        if !h.durable {
            continue;
        }
        plan = plan_part(job, ids, rows, h, interval * 2 + 1, plan);
        interval += 1;
    }
    plan
}
