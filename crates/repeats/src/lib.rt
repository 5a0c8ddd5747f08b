// Which blocks of keystreams cannot be the same: theorems. No code.
#![tactic(auto)]
