// The parts of a job, in a table.
ghost use Rattle.std.specs.Prelude.{◌<◌};
ghost use Rattle.commit_durable.specs.Tables.{PartsHold, PartFound};

use commit_rows::PartSpan;

// Part k. The job, where its keys stand, and the number of parts are for the contract.
pub fn part_at(job: &[u8], parts: &[usize], n: usize, k: usize) -> PartSpan
    requires fact_1 { PartsHold job.now n parts.now }
    requires fact_2 { k < n }
    ensures { PartFound job.now k result }
{
    commit_rows::part_row(parts, k)
}
