// Rijndael in the order of the proposal, on bytes: blocks of 256 bits, keys of 192 bits, 14 rounds. Nothing is looked up.
#![tactic(auto)]

mod steps;

ghost use Rattle.std.specs.Prelude.{◌≡◌};
ghost use Rattle.rijndael.specs.Cipher.{to_state, to_block, encrypted, cipher};
ghost use Rattle.plain_schedule.specs.Bytes.{words_of};

use plain_schedule::key_expansion;
use steps::{add_round_key, final_round, round};

// 4.1: the input goes down the first column, then down the second, ..
fn to_state(b: [u8; 32]) -> [[u8; 8]; 4]
    ensures { result ≡ to_state b }
{
    let mut s = [[0u8; 8]; 4];
    for r in 0..4 {
        for c in 0..8 {
            s[r][c] = b[4 * c + r];
        }
    }
    s
}

// 4.1: and the output comes from the state in the same order.
fn to_block(s: [[u8; 8]; 4]) -> [u8; 32]
    ensures { result ≡ to_block s }
{
    let mut b = [0u8; 32];
    for k in 0..32 {
        b[k] = s[k % 4][k / 4];
    }
    b
}

// 4.4: the initial key, rounds 1 to 13, and the final round. A round's result goes through `u`, since the proof is not made where it is laid in `t`.
fn encrypt(s: [[u8; 8]; 4], w: [[u8; 4]; 120]) -> [[u8; 8]; 4]
    ensures { result ≡ encrypted (words_of w) s }
{
    let mut t = add_round_key(s, w, 0);
    for n in 1..14 {
        let u = round(t, w, n);
        t = u;
    }
    final_round(t, w, 14)
}

// 4.4: Rijndael(State, CipherKey), in its order: the key's expansion, and then the rounds.
pub fn cipher(block: [u8; 32], key: [u8; 24]) -> [u8; 32]
    ensures { result ≡ cipher key block }
{
    to_block(encrypt(to_state(block), key_expansion(key)))
}
