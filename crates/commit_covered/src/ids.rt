// The ids of the job's outputs, kept by number: an entry of `slots` is one more than the last output that has it, or 0, and
// a row of `chain` is the place of an output's id in the job and what the entry was before.
ghost use Rattle.std.specs.Prelude.{◌≡◌, ◌+◌, ◌*◌, ◌≤◌, ◌<◌, length, get_or, set};
ghost use Rattle.incremental_progress.specs.Jobs.{outputs};
ghost use Rattle.commit_durable.specs.Tables.{job_of};
ghost use Rattle.commit_covered.specs.Kept.{entry_of, id_among, IdsKept};

use records::TableId;

// The entry of an id, of n. By primes near a table's length, so that ids spread if either half is the same in all of them.
fn entry(id: TableId, n: usize) -> usize
    requires { 0 < n }
    ensures { (result ≡ entry_of n id) × (result < n) }
{
    let head = key::word(&id.0, 0);
    let tail = key::word(&id.0, 8);
    (head % 8161 + tail % 8147) as usize % n
}

// Keeps the id of output k, which stands at a place of the job.
pub fn keep(id: TableId, place: usize, k: usize, chain: &mut [usize], slots: &mut [usize])
    requires fact_1 { k * 2 + 2 ≤ length chain.old }
    requires fact_2 { 0 < length slots.old }
    ensures chain_after { chain.new ≡ set (set chain.old (k * 2) place) (k * 2 + 1) (get_or slots.old (entry_of (length slots.old) id) 0) }
    ensures slots_after { slots.new ≡ set slots.old (entry_of (length slots.old) id) (k + 1) }
{
    let e = entry(id, slots.len());
    let row = k * 2;
    chain[row] = place;
    chain[row + 1] = slots[e];
    slots[e] = k + 1;
}

// Whether an id is one of the kept.
pub fn is_kept(job: &[u8], chain: &[usize], slots: &[usize], id: TableId) -> bool
    requires { IdsKept job.now (outputs (job_of job.now).parts) chain.now slots.now }
    ensures { result ≡ id_among id (outputs (job_of job.now).parts) }
{
    let e = entry(id, slots.len());
    let mut left = slots[e];
    while 0 < left {
        let row = (left - 1) * 2;
        let wanted = id.0;
        let other = records::table_id_at(job, chain[row]).0;
        if key::cmp(&wanted, &other).is_eq() {
            return true;
        }
        left = chain[row + 1];
    }
    false
}
