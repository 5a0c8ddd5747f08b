// The inverse of the block cipher, with its own schedule. No call of the card needs it: the theorems on repeated blocks do.
#![tactic(auto)]

pub mod inv_schedule;
mod lent;
mod steps;

ghost use Rattle.std.specs.Prelude.{◌≡◌, ◌<◌};
ghost use Rattle.rijndael.specs.Cipher.{to_state, to_block};
ghost use Rattle.inverse.specs.Decipher.{inv_round_of, inv_final_round, decrypted, decipher};

use gf256::SBox;
use inv_bytes::InvSBox;
use inv_parts::inv_shift_row;
pub use lent::decrypt_block;
use rijndael::{to_block, to_state};
use round_steps::add_key_of_round;
use steps::{inv_byte_sub, inv_mix_column};

fn inv_round(s: [[u8; 8]; 4], w: &[u32; 120], n: usize, table: &InvSBox) -> [[u8; 8]; 4]
    requires { n < 15 }
    ensures { result ≡ inv_round_of w.now n s }
{
    add_key_of_round(inv_mix_column(inv_shift_row(inv_byte_sub(s, table))), w, n)
}

fn inv_last_round(s: [[u8; 8]; 4], w: &[u32; 120], n: usize, table: &InvSBox) -> [[u8; 8]; 4]
    requires { n < 15 }
    ensures { result ≡ inv_final_round w.now n s }
{
    add_key_of_round(inv_shift_row(inv_byte_sub(s, table)), w, n)
}

// The rounds in their order. A round's result goes through `u`, since the proof is not made where it is laid in `t`.
fn decrypt(s: [[u8; 8]; 4], w: &[u32; 120], table: &InvSBox) -> [[u8; 8]; 4]
    ensures { result ≡ decrypted w.now s }
{
    let mut t = add_key_of_round(s, w, 14);
    for n in 0..13 {
        let u = inv_round(t, w, 13 - n, table);
        t = u;
    }
    inv_last_round(t, w, 0, table)
}

// A block under the inverse's schedule.
pub fn decipher_block(b: [u8; 32], w: &[u32; 120], table: &InvSBox) -> [u8; 32]
    ensures { result ≡ to_block (decrypted w.now (to_state b)) }
{
    to_block(decrypt(to_state(b), w, table))
}

// A block under a key.
pub fn deciphered(key: [u8; 24], b: [u8; 32]) -> [u8; 32]
    ensures { result ≡ decipher key b }
{
    let s_box = SBox::new();
    let table = InvSBox::new();
    let mut w = [0u32; 120];
    inv_schedule::fill_inv_schedule(&mut w, key, &s_box);
    decipher_block(b, &w, &table)
}

// For the test that holds this to libmcrypt: the block is deciphered in place.
#[unsafe(no_mangle)]
pub extern "C" fn inverse_decipher(key: &[u8; 24], block: &mut [u8; 32])
    ensures { block.new ≡ decipher key.now block.old }
{
    *block = deciphered(*key, *block);
}
