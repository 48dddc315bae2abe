// Visible sizes. The calls stand in `view_sizes`, with their contracts; each takes any bytes and answers the number of a stop, or
// what was asked. Runs and views are called by their places, which count from 0.

// How much of its table a view shows.
pub use view_sizes::visible_fraction;

// The size of a view: of its table, by how much of it the view shows.
pub use view_sizes::estimate_visible_size;

// The size of a run: the sum over its views.
pub use view_sizes::estimate_run_visible_size;

// What the first answers: the fraction, or the number of a stop.
pub use view_sizes::Shown;

// What the others answer: a size in bytes, or the number of a stop.
pub use view_sizes::Estimated;

// A fraction: whole, or a part together with its number.
pub use visible_size::VisibleFraction;
