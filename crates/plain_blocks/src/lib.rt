// The plain engine up to its blocks: mode key and mode value, and the blocks of the keystream.
#![tactic(auto)]

pub mod blocks;
pub mod mode;
