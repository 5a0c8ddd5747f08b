// Bytes as elements of GF(2^8), with nothing looked up: products, the inverse, the S-box.
#![tactic(auto)]

pub mod galois;
pub mod s_box;
