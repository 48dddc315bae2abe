// A job read whole in one pass, with what the checks 4 to 7, 10 and 11 say of it.
ghost use Rattle.std.specs.Prelude.{◌≡◌, ◌≤◌, length};
ghost use Rattle.base.specs.Pick.{pick};
ghost use Rattle.commit_durable.specs.Answers.{JobPassed};

use crate::parts::{PartsJudged, parts_read};
use records::JobRead;

// The destination, how many sources there are and the place of the first one's id, how many parts; the first of the checks
// 4 to 7 that fails or 8, and the first of 10 and 11 that fails or 12.
#[derive(Clone, Copy)]
pub struct JobHead {
    pub destination: u64,
    pub sources: usize,
    pub from: usize,
    pub parts: usize,
    pub fault: u8,
    pub late: u8,
}

#[derive(Clone, Copy)]
pub enum JobJudged {
    Stop(u8),
    At(JobHead),
}

// Check 10 covers all parts before check 11.
fn late_fault(planned: bool, inside: bool) -> u8
    ensures { result ≡ pick planned (pick inside 12 11) 10 }
{
    if !planned {
        10
    } else if !inside {
        11
    } else {
        12
    }
}

// The job that is the whole of a buffer, and its parts in a table.
pub fn job_read(job: &[u8], parts: &mut [usize]) -> JobJudged
    requires { 640 ≤ length parts.old }
    ensures { JobPassed job.now parts.old parts.new result }
{
    match records::job_head(job) {
        JobRead::Stop(k) => JobJudged::Stop(k),
        JobRead::At {
            destination,
            sources,
            from,
            parts: n,
            next,
        } => match parts_read(job, next, n, parts) {
            PartsJudged::Stop(k) => JobJudged::Stop(k),
            PartsJudged::At(p) => {
                if p.past < job.len() {
                    return JobJudged::Stop(1);
                }
                JobJudged::At(JobHead {
                    destination,
                    sources,
                    from,
                    parts: n,
                    fault: p.fault,
                    late: late_fault(p.planned, p.inside),
                })
            }
        },
    }
}
