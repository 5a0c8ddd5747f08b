// What reading a case promises: the readable lines are those of the good cases, one for each. Theorems; no code.
#![tactic(auto)]
