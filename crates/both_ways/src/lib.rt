// The inverse block undoes the cipher, and the cipher the inverse: theorems. No code.
#![tactic(auto)]
