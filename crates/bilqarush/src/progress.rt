// The progress of a compaction. The calls stand in crates of their names, with their contracts; each takes any bytes, and writes its
// answer into a lent buffer, a count and ranges as in a plan, or answers the number of a stop and leaves the buffer as it was.

// The durable intervals of a job's parts.
pub use from_compaction::from_compaction;

// What of a range lies outside an interval, which is given first.
pub use subtract_from::subtract_from;
