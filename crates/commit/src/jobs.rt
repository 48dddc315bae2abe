// A commit from its job on.
ghost use Rattle.std.specs.Prelude.{◌≡◌, ◌≤◌, length};
ghost use Rattle.base.specs.Outcome.{lent, reported};
ghost use Rattle.commit_index.specs.Index.{ImageTold};
ghost use Rattle.incremental_progress.specs.Commit.{commit_outcome};

use crate::stages::apply;
use base::Written;
use commit_durable::JobJudged;

// A commit to an image that was read: its n runs stand in a table, and the first of the checks 4 to 7 that it fails is known.
pub fn commit_job<'a>(
    image: &'a [u8],
    job: &'a [u8],
    ids: &[u8],
    index: &[usize],
    out: &mut [u8],
    n: usize,
    a: u8,
) -> Written
    requires fact_1 { ImageTold image.now index.now n a }
    requires fact_2 { length image.now ≤ 65536 }
    ensures value { result ≡ reported (commit_outcome image.now job.now ids.now (length out.old)) }
    ensures out_after { out.new ≡ lent out.old (commit_outcome image.now job.now ids.now (length out.old)) }
{
    if 65536 < job.len() {
        return Written::Stop(3);
    }
    let mut parts = [0usize; 640];
    match commit_durable::job_read(job, &mut parts) {
        JobJudged::Stop(k) => Written::Stop(k),
        JobJudged::At(head) => {
            // The lesser of the two: each check covers both before the next.
            let fault = manifest::lesser(a, head.fault);
            if fault < 8 {
                return Written::Stop(fault);
            }
            apply(image, job, ids, index, &parts, out, head, n)
        }
    }
}
