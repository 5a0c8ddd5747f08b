// What the calls on a buffer share: refusals 5, 4 and 6, lent bytes as values, the step that xors keystream into a run of bits, and the form of
// their reports.
#![tactic(auto)]

pub mod lent;
pub mod span_refusals;
pub mod xor;

// What a call on a buffer reports beside it: the refusal, the blocks that it made, and the key schedules that it filled. It is no `Result`: a refused call
// says what it filled too.
#[derive(Clone, Copy)]
pub struct Report {
    pub refusal: u8,
    pub blocks: usize,
    pub schedules: usize,
}
