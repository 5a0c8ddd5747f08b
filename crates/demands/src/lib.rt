// Demands 1 and 2, clause by clause: theorems on what the public calls answer. No code.
#![tactic(auto)]
