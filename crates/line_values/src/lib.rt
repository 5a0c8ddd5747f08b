// What a part of a line says: a decimal number, or bytes by two hex digits each.
#![tactic(auto)]

pub mod bytes;
pub mod number;
