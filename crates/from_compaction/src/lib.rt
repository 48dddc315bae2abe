// `from_compaction` of incremental_progress.rs: what of a job is durable.
#![tactic(auto)]

mod ranges;

ghost use Rattle.std.specs.Prelude.{◌≡◌, length};
ghost use Rattle.base.specs.Outcome.{lent, reported};
ghost use Rattle.from_compaction.specs.ProgressCalls.{from_compaction_outcome};

use base::Written;
use commit_durable::JobJudged;
use ranges::write_ranges;

// Reads a job, the record of a compaction, finished or not, and writes to the front of out the durable intervals of its parts,
// as ranges, after their count. Stops 1 to 5, 7, 8, 10, 11 and 16.
pub fn from_compaction(job: &[u8], out: &mut [u8]) -> Written
    ensures value { result ≡ reported (from_compaction_outcome job.now (length out.old)) }
    ensures out_after { out.new ≡ lent out.old (from_compaction_outcome job.now (length out.old)) }
{
    if 65536 < job.len() {
        return Written::Stop(3);
    }
    let mut parts = [0usize; 640];
    match commit_durable::job_read(job, &mut parts) {
        JobJudged::Stop(k) => Written::Stop(k),
        JobJudged::At(head) => {
            if head.fault < 8 {
                return Written::Stop(head.fault);
            }
            if !commit_durable::is_source(job, head.from, head.sources, head.destination) {
                return Written::Stop(8);
            }
            if head.late < 12 {
                return Written::Stop(head.late);
            }
            write_ranges(job, &parts, head.parts, out)
        }
    }
}
