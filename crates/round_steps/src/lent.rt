// For callers that hold a schedule as a plain slice.
ghost use Rattle.std.specs.Prelude.{◌≡◌, ◌<◌, length};
ghost use Rattle.round_steps.specs.Steps.{add_round_key};

use crate::add_key_of_round;

pub fn add_round_key(s: [[u8; 8]; 4], w: &[u32], n: usize) -> [[u8; 8]; 4]
    requires { (length w.now ≡ 120) × (n < 15) }
    ensures { result ≡ add_round_key w.now n s }
{
    let Some(words) = w.as_array::<120>() else {
        unreachable!()
    };
    add_key_of_round(s, words, n)
}
