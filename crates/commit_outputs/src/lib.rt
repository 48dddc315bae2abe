// The job's outputs, planned: those of each part that has a durable interval, in the job's order.
#![tactic(auto)]

mod output;
mod parts;

pub use parts::plan_outputs;
