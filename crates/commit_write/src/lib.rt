// The image that a commit was planned to make, written from rows into a lent buffer that has room for it.
#![tactic(auto)]

mod destination;
mod rows;
mod runs;
mod views;

pub use runs::{Counts, put_image};
