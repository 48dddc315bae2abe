// The head of a job, and the head of each of its parts.
ghost use Rattle.std.specs.Prelude.{◌≤◌, length, drop};
ghost use Rattle.records.specs.Spans.{part_head, PartFound, sources, SourcesFound, job_head, JobFound};

use crate::runs::{CountRead, count_at};
use format::{BoundSpan, RangeRead};

// A part's planned range, whether it is completed, how many outputs it has, and the place of the first.
#[derive(Clone, Copy)]
pub enum PartRead {
    At {
        start: BoundSpan,
        end: BoundSpan,
        completed: bool,
        outputs: usize,
        next: usize,
    },
    Stop(u8),
}

// The head of the part at a place: the range, then a word with the completed flag in its highest bit and the output count
// in the other 15.
#[tactic(auto, using(crate::proofs::PartExits::part_exits))]
pub fn part_at(s: &[u8], at: usize) -> PartRead
    ensures { PartFound s.now (part_head.read (drop at s.now)) result }
{
    match format::range_at(s, at) {
        RangeRead::Stop(n) => PartRead::Stop(n),
        RangeRead::At {
            start,
            end,
            next: p,
        } => {
            if s.len() - p < 2 {
                return PartRead::Stop(1);
            }
            let word = format::number_there(s, p, 2);
            if 1024 < word % 32768 {
                return PartRead::Stop(3);
            }
            PartRead::At {
                start,
                end,
                completed: word / 32768 == 1,
                outputs: (word % 32768) as usize,
                next: p + 2,
            }
        }
    }
}

// How many sources a job has, the place of the first one's id, and the place past the last.
#[derive(Clone, Copy)]
pub enum SourcesRead {
    At {
        count: usize,
        from: usize,
        next: usize,
    },
    Stop(u8),
}

// The sources at a place: their count, and an id of 4 bytes each.
#[tactic(auto, using(crate::proofs::PartExits::sources_exits))]
fn sources_at(s: &[u8], at: usize) -> SourcesRead
    requires { at ≤ length s.now }
    ensures { SourcesFound s.now (sources.read (drop at s.now)) result }
{
    match count_at(s, at, 1, 64) {
        CountRead::Stop(n) => SourcesRead::Stop(n),
        CountRead::At(count, from) => {
            // Divided, so that the product is made only where it fits.
            if (s.len() - from) / 4 < count {
                return SourcesRead::Stop(1);
            }
            SourcesRead::At {
                count,
                from,
                next: from + 4 * count,
            }
        }
    }
}

// A job's destination, how many sources it has and the place of the first one's id, how many parts it has and the place
// of the first.
#[derive(Clone, Copy)]
pub enum JobRead {
    At {
        destination: u64,
        sources: usize,
        from: usize,
        parts: usize,
        next: usize,
    },
    Stop(u8),
}

// The head of the job at the front of a buffer.
#[tactic(auto, using(crate::proofs::PartExits::job_exits))]
pub fn job_head(s: &[u8]) -> JobRead
    ensures { JobFound s.now (job_head.read s.now) result }
{
    if s.len() < 4 {
        return JobRead::Stop(1);
    }
    let destination = format::number_there(s, 0, 4);
    match sources_at(s, 4) {
        SourcesRead::Stop(n) => JobRead::Stop(n),
        SourcesRead::At {
            count: sources,
            from,
            next: past,
        } => match count_at(s, past, 1, 64) {
            CountRead::Stop(n) => JobRead::Stop(n),
            CountRead::At(parts, next) => JobRead::At {
                destination,
                sources,
                from,
                parts,
                next,
            },
        },
    }
}
