// Check 9: the sources of a job, which are ids of 4 bytes, one after another, are runs of the image.
ghost use Rattle.std.specs.Prelude.{◌≡◌, ◌≤◌, ◌+◌, ◌*◌, length, drop};
ghost use Rattle.records.specs.Spans.{ids_in};
ghost use Rattle.manifest.specs.Checks.{all, has};
ghost use Rattle.commit_index.specs.Index.{image_ids, IndexHold};

use crate::runs::has_run;

// Whether each of m sources that stand from a place of the job on is one of the image's n runs.
pub fn sources_there(
    image: &[u8],
    index: &[usize],
    n: usize,
    job: &[u8],
    from: usize,
    m: usize,
) -> bool
    requires fact_1 { IndexHold image.now n index.now }
    requires fact_2 { from + 4 * m ≤ length job.now }
    ensures { result ≡ all (λ k. has k (image_ids image.now)) (ids_in m (drop from job.now)) }
{
    for i in 0..m {
        if !has_run(image, index, n, format::number_there(job, from + 4 * i, 4)) {
            return false;
        }
    }
    true
}
