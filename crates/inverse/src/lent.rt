// For callers that hold a schedule as a plain slice, and the inverse S-box as a plain table.
ghost use Rattle.std.specs.Prelude.{◌≡◌, length};
ghost use Rattle.rijndael.specs.Cipher.{to_state, to_block};
ghost use Rattle.inv_bytes.specs.Bytes.{inv_s_boxes};
ghost use Rattle.inverse.specs.Decipher.{decrypted};

use crate::decipher_block;
use inv_bytes::InvSBox;

// A block under the inverse's schedule.
pub fn decrypt_block(b: [u8; 32], w: &[u32], table: &[u8; 256]) -> [u8; 32]
    requires { (length w.now ≡ 120) × (table.now ≡ inv_s_boxes) }
    ensures { result ≡ to_block (decrypted w.now (to_state b)) }
{
    let Some(words) = w.as_array::<120>() else {
        unreachable!()
    };
    decipher_block(b, words, &InvSBox::of(*table))
}
