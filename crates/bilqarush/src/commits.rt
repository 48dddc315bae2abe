// The commit of a compaction's record, from image to image.
ghost use Rattle.std.specs.Prelude.{◌≡◌, length};
ghost use Rattle.base.specs.Outcome.{lent, reported};
ghost use Rattle.incremental_progress.specs.Commit.{commit_outcome};

use base::Written;
use commit_index::Indexed;

// Reads an image and a job, the record of a compaction, finished or not, and writes to the front of out the image in which
// what is durable of it shows, through its output tables in the destination and no longer through the sources. New view ids
// are drawn from ids. Stops 1 to 12 and 14 to 16.
#[tactic(auto, using(crate::proofs::CommitExits::commit_exits))]
pub fn commit<'a>(image: &'a [u8], job: &'a [u8], ids: &[u8], out: &mut [u8]) -> Written
    ensures value { result ≡ reported (commit_outcome image.now job.now ids.now (length out.old)) }
    ensures out_after { out.new ≡ lent out.old (commit_outcome image.now job.now ids.now (length out.old)) }
{
    if 65536 < image.len() {
        return Written::Stop(3);
    }
    let mut index = [0usize; 256];
    match commit_index::image_indexed(image, &mut index) {
        Indexed::Stop(k) => Written::Stop(k),
        Indexed::At { runs, fault } => commit::commit_job(
            image, job, ids, &index, out, runs, fault,
        ),
    }
}
