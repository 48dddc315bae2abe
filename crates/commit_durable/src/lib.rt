// What of a job is durable: its parts with their intervals, and the gaps between these.
#![tactic(auto)]

mod durable;
mod gaps;
mod jobs;
mod outputs;
mod parts;
mod sources;
mod tables;

pub use gaps::{gap_at, gaps_of};
pub use jobs::{JobHead, JobJudged, job_read};
pub use parts::half_open;
pub use sources::is_source;
pub use tables::part_at;
