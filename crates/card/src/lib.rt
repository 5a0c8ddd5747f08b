// The card: the calls that an integrator makes, each with every refusal of document 01.
#![tactic(auto)]

pub mod bench_call;
pub mod listing;
pub mod plan_call;
pub mod record;
pub mod table;
