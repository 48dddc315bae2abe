// A planned commit: the checks 14 to 16, and the new image.
ghost use Rattle.std.specs.Prelude.{◌≡◌, ◌≤◌, length};
ghost use Rattle.base.specs.Outcome.{lent, reported};
ghost use Rattle.commit.specs.Stages.{planned_outcome, Ready, Settled, OrderLong};

use base::Written;
use commit_plan::ImagePlan;
use commit_write::Counts;

// Check 16, and then the new image. The order of the destination's rows is made in a table that is lent.
fn write_image<'a>(
    image: &'a [u8],
    job: &'a [u8],
    ids: &[u8],
    runs: &[usize],
    rows: &[usize],
    order: &mut [usize],
    out: &mut [u8],
    a: ImagePlan,
) -> Written
    requires fact_1 { Settled image.now job.now ids.now runs.now rows.now a }
    requires fact_2 { OrderLong a order.old }
    ensures value { result ≡ reported (planned_outcome image.now job.now ids.now (length out.old)) }
    ensures out_after { out.new ≡ lent out.old (planned_outcome image.now job.now ids.now (length out.old)) }
{
    let bytes = a.bytes;
    if out.len() < bytes {
        return Written::Stop(16);
    }
    let counts = Counts {
        runs: records::runs_there(image, 0),
        outputs: a.outputs,
    };
    commit_write::put_image(image, job, ids, runs, rows, order, out, counts);
    Written::Wrote(bytes)
}

// Checks 14 and 15, and what follows.
pub fn finish<'a>(
    image: &'a [u8],
    job: &'a [u8],
    ids: &[u8],
    runs: &[usize],
    rows: &[usize],
    out: &mut [u8],
    a: ImagePlan,
) -> Written
    requires { Ready image.now job.now ids.now runs.now rows.now a }
    ensures value { result ≡ reported (planned_outcome image.now job.now ids.now (length out.old)) }
    ensures out_after { out.new ≡ lent out.old (planned_outcome image.now job.now ids.now (length out.old)) }
{
    if !a.plan.enough {
        return Written::Stop(14);
    }
    if !a.fits || 65536 < a.bytes {
        return Written::Stop(15);
    }
    if a.plan.rows <= 64 {
        let mut order = [0usize; 64];
        return write_image(image, job, ids, runs, rows, &mut order, out, a);
    }
    let mut order = [0usize; 1024];
    write_image(image, job, ids, runs, rows, &mut order, out, a)
}
