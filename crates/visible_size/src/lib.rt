// How much of a table a view shows, in f64 steps as db_state.rs has them, and the size that comes of it.
#![tactic(auto)]

pub mod fraction;
pub mod keys;
pub mod size;

// Whole, or a part together with its fraction.
#[derive(Clone, Copy)]
pub enum VisibleFraction {
    Whole,
    Part(f64),
}
