// Theorems on mending a damaged record sheet. No code.
#![tactic(auto)]
