// Runs and views of an image, called by place, and the lookups in them, over values: definitions in specs/, laws proved in
// proofs/. The code stands in the crates `sst_view` and `sorted_run`.
#![tactic(auto)]
