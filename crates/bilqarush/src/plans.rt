// Planning. The calls stand in crates of their names, with their contracts; each takes any bytes and settings, and writes its answer
// into a lent buffer, or answers the number of a stop and leaves the buffer as it was.

// The anchors of a table: its blocks in groups, each with its first key and its bytes.
pub use sample_anchors::sample_anchors;

// Ranges from anchors, so that each has about as many bytes.
pub use select_boundaries::select_boundaries;

// The ranges for the compaction of an image, from the index image of each view.
pub use plan_subcompaction_ranges::plan_subcompaction_ranges;
