// TEA5, TEA6 and TEA7 (ETSI TS 104 053-2): from a key and an initial value to what the keystream's blocks are made of.
#![tactic(auto)]

pub mod mixing;
pub mod mode;
pub mod plaintext;
