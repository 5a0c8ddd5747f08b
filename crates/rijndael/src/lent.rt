// For callers that hold a schedule as a plain slice, and the tables as plain arrays.
ghost use Rattle.std.specs.Prelude.{◌≡◌, length};
ghost use Rattle.gf256.specs.Field.{s_boxes};
ghost use Rattle.products.specs.Products.{products};
ghost use Rattle.rijndael.specs.Cipher.{to_state, to_block, encrypted};

use crate::cipher_block;
use gf256::SBox;
use products::ProductTable;

// A block under a schedule.
pub fn encrypt_block(b: [u8; 32], w: &[u32], table: &[u8; 256], mixes: &[u8; 2048]) -> [u8; 32]
    requires { (length w.now ≡ 120) × ((table.now ≡ s_boxes) × (mixes.now ≡ products)) }
    ensures { result ≡ to_block (encrypted w.now (to_state b)) }
{
    let Some(words) = w.as_array::<120>() else {
        unreachable!()
    };
    cipher_block(b, words, &SBox::of(*table), &ProductTable::of(*mixes))
}
