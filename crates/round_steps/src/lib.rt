// The steps of a round (the Rijndael proposal, 4.2), on a state of four rows by eight columns by value: loops over the columns.
#![tactic(auto)]

mod lent;

ghost use Rattle.std.specs.Prelude.{◌≡◌, ◌<◌};
ghost use Rattle.round_steps.specs.Steps.{byte_sub, shift_row, add_round_key, final_round};

use gf256::SBox;
pub use lent::add_round_key;
use words::{byte0, byte1, byte2, byte3};

fn byte_sub(s: [[u8; 8]; 4], table: &SBox) -> [[u8; 8]; 4]
    ensures { result ≡ byte_sub s }
{
    let mut t = s;
    for r in 0..4 {
        for c in 0..8 {
            t[r][c] = table.substitute(s[r][c]);
        }
    }
    t
}

fn shift_row(s: [[u8; 8]; 4]) -> [[u8; 8]; 4]
    ensures { result ≡ shift_row s }
{
    let mut t = s;
    for c in 0..8 {
        t[0][c] = s[0][c];
        t[1][c] = s[1][(c + 1) % 8];
        t[2][c] = s[2][(c + 3) % 8];
        t[3][c] = s[3][(c + 4) % 8];
    }
    t
}

// Round n's key, words 8 n to 8 n + 7 of the schedule, one to a column.
pub fn add_key_of_round(s: [[u8; 8]; 4], w: &[u32; 120], n: usize) -> [[u8; 8]; 4]
    requires { n < 15 }
    ensures { result ≡ add_round_key w.now n s }
{
    let mut t = s;
    for c in 0..8 {
        let k = w[8 * n + c];
        t[0][c] = s[0][c] ^ byte0(k);
        t[1][c] = s[1][c] ^ byte1(k);
        t[2][c] = s[2][c] ^ byte2(k);
        t[3][c] = s[3][c] ^ byte3(k);
    }
    t
}

pub fn last_round(s: [[u8; 8]; 4], w: &[u32; 120], n: usize, table: &SBox) -> [[u8; 8]; 4]
    requires { n < 15 }
    ensures { result ≡ final_round w.now n s }
{
    add_key_of_round(shift_row(byte_sub(s, table)), w, n)
}
