// No code: what stands here is computed from the rules, on whole runs and whole outputs. See proofs/.
#![tactic(auto)]
