// A commit planned: what is left of each source run's views, and the outputs, as rows of the new image.
#![tactic(auto)]

mod held;
mod plan;
mod runs;
mod views;

pub use plan::{ImagePlan, PlanHead, plan_runs};
