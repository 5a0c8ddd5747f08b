// Rules for walks by hand of functions that the checker does not walk itself: proofs alone. They say nothing of slots.
#![tactic(auto)]
