// The plain engine: TEA5, TEA6 and TEA7 in the order of ETSI TS 104 053-2, to be read beside it.
#![tactic(auto)]

pub mod call;
