// Runs and views of an image: called by place, and looked up by an asked range.
#![tactic(auto)]

pub mod asked;
pub mod places;
pub mod views;

pub use places::view_given;
pub use views::{calculate_view_range, compacted_intersection, intersects_range};
