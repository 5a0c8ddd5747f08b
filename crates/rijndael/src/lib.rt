// Rijndael with blocks of 256 bits and keys of 192 bits: 14 rounds on a state of four rows by eight columns.
#![tactic(auto)]

mod lent;

ghost use Rattle.std.specs.Prelude.{◌≡◌, ◌+◌, ◌*◌, get_or};
ghost use Rattle.rijndael.specs.Cipher.{to_state, to_block, encrypted};

use gf256::SBox;
pub use lent::encrypt_block;
use products::ProductTable;
use round_steps::last_round;
use rounds::packing::{first_keyed_words, from_words, to_words};
use rounds::round;

// Byte k of a block stands in row k mod 4, column k div 4.
pub fn to_state(b: [u8; 32]) -> [[u8; 8]; 4]
    ensures { result ≡ to_state b }
{
    let mut t = [[0u8; 8]; 4];
    for c in 0..8 {
        t[0][c] = b[4 * c];
        t[1][c] = b[4 * c + 1];
        t[2][c] = b[4 * c + 2];
        t[3][c] = b[4 * c + 3];
    }
    t
}

pub fn to_block(s: [[u8; 8]; 4]) -> [u8; 32]
    ensures { result ≡ to_block s }
{
    let mut b = [0u8; 32];
    for c in 0..8 {
        b[4 * c] = s[0][c];
        b[4 * c + 1] = s[1][c];
        b[4 * c + 2] = s[2][c];
        b[4 * c + 3] = s[3][c];
    }
    b
}

// Words 0 and 2 of a state, as one number.
fn pair_of(t: [u32; 8]) -> u64
    ensures { result ≡ get_or t 0 0 + get_or t 2 0 * 4294967296 }
{
    (t[0] as u64) + (t[2] as u64) * 4294967296
}

// The state, with those two words taken from their number.
fn with_pair(t: [u32; 8], pair: u64) -> [u32; 8]
    requires { pair ≡ get_or t 0 0 + get_or t 2 0 * 4294967296 }
    ensures { result ≡ t }
{
    let mut x = t;
    x[0] = (pair % 4294967296) as u32;
    x[2] = (pair / 4294967296) as u32;
    x
}

// The initial key, rounds 1 to 13, and the final round. Between two rounds the state is eight words, and two of them go on as one number: of eight
// that are alike the compiler takes four into one vector register, where a round takes longer and its keys stay behind.
fn encrypt(s: [[u8; 8]; 4], w: &[u32; 120], table: &SBox, mixes: &ProductTable) -> [[u8; 8]; 4]
    ensures { result ≡ encrypted w.now s }
{
    let mut t = first_keyed_words(s, w);
    let mut pair = pair_of(t);
    for n in 1..14 {
        let u = to_words(round(from_words(with_pair(t, pair)), w, n, mixes));
        t = u;
        pair = pair_of(t);
    }
    last_round(from_words(with_pair(t, pair)), w, 14, table)
}

// A block under a schedule. It is the one caller of `encrypt`, which is inlined only so.
pub fn cipher_block(b: [u8; 32], w: &[u32; 120], table: &SBox, mixes: &ProductTable) -> [u8; 32]
    ensures { result ≡ to_block (encrypted w.now (to_state b)) }
{
    to_block(encrypt(to_state(b), w, table, mixes))
}
