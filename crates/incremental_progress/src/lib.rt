// Durable intervals, what a commit makes of an image, and the claim about lists of commits: definitions in specs/, their
// laws in proofs/. The code that is held to them is in the crates above.
#![tactic(auto)]
