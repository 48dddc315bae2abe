// A commit: read once, planned once, written once.
#![tactic(auto)]

mod jobs;
mod rows;
mod stages;
mod write;

pub use jobs::commit_job;
