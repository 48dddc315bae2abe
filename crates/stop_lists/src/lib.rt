// The stops of each public call, as a theorem: specs/ has the lists, proofs/ that they are exact. No code.
#![tactic(auto)]
