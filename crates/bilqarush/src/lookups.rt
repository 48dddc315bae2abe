// The lookups. They stand in the crates below, with their contracts; each takes any bytes and answers the number of a stop, or
// what was asked. Indexes, images and ranges are given as their images, keys as they are. Runs and views are called by their
// places, and these and partitions count from 0.

// How many first keys of an index, from the first on, satisfy a test.
pub use partitioned_keyspace::partition_point;

// The first partition that may include a key.
pub use partitioned_keyspace::first_partition_including_key;

// The same, or the first of all where there is none.
pub use partitioned_keyspace::first_partition_including_or_after_key;

// The last partition that may include a key.
pub use partitioned_keyspace::last_partition_including_key;

// The partitions that may hold a key of a range, from one place up to, without, another.
pub use partitioned_keyspace::partitions_covering_range;

// The views of a run that may hold a key of a range, from one place up to, without, another.
pub use sorted_run::table_idx_covering_range;

// Whether a range meets a run: what lies from its first view's start to its last view's end.
pub use sorted_run::overlaps_range;

// The part of a range that a view keeps, up to the next view of its run. The image is the first of the two slices.
pub use sst_view::compacted_intersection;

// The part of a range that a view is read for.
pub use sst_view::calculate_view_range;

// Whether a range meets a view up to an end bound, which is given by the number of its kind and its key.
pub use sst_view::intersects_range;

// What they answer.
pub use partitioned_keyspace::{Counted, Covered, Found};

// The tests of `partition_point`.
pub use partitioned_keyspace::Test;
