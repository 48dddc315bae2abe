// Check 12 of the views of one run.
ghost use Rattle.std.specs.Prelude.{◌≡◌, drop};
ghost use Rattle.records.specs.Form.{read_many};
ghost use Rattle.records.specs.Found.{values_of};
ghost use Rattle.records.specs.Layouts.{view};
ghost use Rattle.incremental_progress.specs.Jobs.{outputs};
ghost use Rattle.commit_durable.specs.Tables.{job_of, job_gaps, GapsHold};
ghost use Rattle.commit_gaps.specs.Ordered.{GapsOrdered};
ghost use Rattle.commit_covered.specs.Covered.{ViewsHere, views_covered};
ghost use Rattle.commit_covered.specs.Kept.{IdsKept};

use crate::ids::is_kept;

// Of n views, the first of which stands at a place: nothing of one whose table is an output lies in one of the m gaps. The
// views start in order, so the gaps that one has passed need not be looked at again.
pub fn views_covered<'a>(
    image: &'a [u8],
    first: usize,
    n: usize,
    job: &'a [u8],
    gaps: &[usize],
    m: usize,
    chain: &[usize],
    slots: &[usize],
) -> bool
    requires views_here_1 { ViewsHere image.now first n }
    requires views_here_2 { GapsHold job.now m gaps.now }
    requires views_here_3 { GapsOrdered job.now }
    requires ids_kept { IdsKept job.now (outputs (job_of job.now).parts) chain.now slots.now }
    ensures { result ≡ views_covered (job_gaps job.now) (job_of job.now).parts (values_of (read_many view.read n (drop first image.now))) }
{
    let mut g = 0;
    let mut at = first;
    for _ in 0..n {
        let v = records::view_there(image, at);
        at = v.past;
        if !is_kept(job, chain, slots, records::table_id_at(image, v.table.id)) {
            continue;
        }
        let shown = manifest::effective(image, v);
        let reached = commit_gaps::first_gap(image, shown.start, job, gaps, m, g);
        match commit_gaps::next_piece(image, shown, job, gaps, m, reached) {
            Some(_) => return false,
            None => g = reached,
        }
    }
    true
}
