// Keystream bits that the check computes from the definitions: a theorem. No code.
#![tactic(auto)]
