// Theorems on the month sheet. No code.
#![tactic(auto)]
