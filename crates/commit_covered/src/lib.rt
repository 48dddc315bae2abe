// Check 12 of an image and a job: nothing of a destination view of an output table lies in a gap between durable intervals.
#![tactic(auto)]

mod covered;
mod ids;
mod outputs;
mod runs;

pub use runs::{CoverHead, image_covered};
