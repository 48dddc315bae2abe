// Keeping the ids of all outputs of a job.
ghost use Rattle.std.specs.Prelude.{◌+◌, ◌<◌, length};
ghost use Rattle.incremental_progress.specs.Jobs.{outputs};
ghost use Rattle.commit_durable.specs.Tables.{PartsHold};
ghost use Rattle.commit_covered.specs.Kept.{Room, OutputsHere, SomeKept, MoreKept, AllKept};

use crate::ids::keep;

// Keeps the m outputs of one part, the first of which is output k.
fn keep_part(job: &[u8], first: usize, m: usize, k: usize, chain: &mut [usize], slots: &mut [usize])
    requires fact_1 { OutputsHere job.now first m k }
    requires fact_2 { Room job.now chain.old }
    requires fact_3 { SomeKept job.now k chain.old slots.old }
    ensures { MoreKept job.now (k + m) chain.old slots.old chain.new slots.new }
{
    let mut at = first;
    for seen in 0..m {
        let t = records::table_there(job, at);
        let id = records::table_id_at(job, t.id);
        keep(id, t.id, k + seen, chain, slots);
        at = t.past;
    }
}

// Keeps the outputs of n parts.
pub fn keep_outputs(job: &[u8], parts: &[usize], n: usize, chain: &mut [usize], slots: &mut [usize])
    requires fact_1 { PartsHold job.now n parts.now }
    requires fact_2 { Room job.now chain.old }
    requires fact_3 { 0 < length slots.old }
    ensures { AllKept job.now chain.old slots.old chain.new slots.new }
{
    slots.fill(0);
    let mut k = 0;
    for i in 0..n {
        let p = commit_rows::part_row(parts, i);
        keep_part(job, p.first, p.outputs, k, chain, slots);
        k += p.outputs;
    }
}
