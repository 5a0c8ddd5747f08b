// Definitions and laws that the other crates' contracts and proofs cite. No code.
#![tactic(auto)]
