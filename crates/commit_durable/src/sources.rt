// The sources of a job, which are ids of 4 bytes, one after another.
ghost use Rattle.std.specs.Prelude.{◌≡◌, ◌≤◌, ◌+◌, ◌*◌, length, drop};
ghost use Rattle.records.specs.Spans.{ids_in};
ghost use Rattle.manifest.specs.Checks.{has};

// Whether a run is one of n sources that stand from a place on.
pub fn is_source(job: &[u8], from: usize, n: usize, id: u64) -> bool
    requires { from + 4 * n ≤ length job.now }
    ensures { result ≡ has id (ids_in n (drop from job.now)) }
{
    for i in 0..n {
        if format::number_there(job, from + 4 * i, 4) == id {
            return true;
        }
    }
    false
}
