// Check 12 of all runs of an image.
ghost use Rattle.std.specs.Prelude.{◌≡◌, ◌<◌, length};
ghost use Rattle.commit_index.specs.Index.{image_of};
ghost use Rattle.commit_durable.specs.Tables.{job_of, job_gaps, PartsHold};
ghost use Rattle.commit_covered.specs.Covered.{covered_by};
ghost use Rattle.commit_covered.specs.Kept.{Room};
ghost use Rattle.commit_covered.specs.Runs.{CoverReady};

use crate::covered::views_covered;
use crate::outputs::keep_outputs;

// The destination of the job, and how many parts, gaps and runs stand in the tables.
#[derive(Clone, Copy)]
pub struct CoverHead {
    pub destination: u64,
    pub parts: usize,
    pub gaps: usize,
    pub runs: usize,
}

// The views of the destination are covered; those of another run need not be.
pub fn image_covered<'a>(
    image: &'a [u8],
    job: &'a [u8],
    index: &[usize],
    parts: &[usize],
    gaps: &[usize],
    chain: &mut [usize],
    slots: &mut [usize],
    head: CoverHead,
) -> bool
    requires cover_ready { CoverReady image.now job.now index.now gaps.now head }
    requires parts_hold_1 { PartsHold job.now head.parts parts.now }
    requires parts_hold_2 { Room job.now chain.old }
    requires parts_hold_3 { 0 < length slots.old }
    ensures value { result ≡ covered_by (job_gaps job.now) (image_of image.now) (job_of job.now) }
    ensures chain_len_unchanged_1 { length chain.new ≡ length chain.old }
    ensures chain_len_unchanged_2 { length slots.new ≡ length slots.old }
{
    keep_outputs(job, parts, head.parts, chain, slots);
    for k in 0..head.runs {
        let run = commit_index::indexed_run(image, index, head.runs, k);
        if run.id == head.destination
            && !views_covered(
                image, run.first, run.views, job, gaps, head.gaps, chain, slots,
            )
        {
            return false;
        }
    }
    true
}
