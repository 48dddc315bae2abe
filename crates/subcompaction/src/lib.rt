// The planner of subcompaction.rs: anchors, boundaries, ranges.
#![tactic(auto)]
