// The steps of a round, on a state of four rows by eight columns: the proposal, 4.2.
ghost use Rattle.std.specs.Prelude.{◌≡◌, ◌<◌};
ghost use Rattle.round_steps.specs.Steps.{shift_of, mixed_byte, byte_sub, shift_row, mix_column, add_round_key, round_of, final_round};
ghost use Rattle.plain_schedule.specs.Bytes.{words_of};

use plain_field::galois::times;
use plain_field::s_box::s_box;

// 4.2.1: each byte through the S-box.
fn byte_sub(s: [[u8; 8]; 4]) -> [[u8; 8]; 4]
    ensures { result ≡ byte_sub s }
{
    let mut t = s;
    for r in 0..4 {
        for c in 0..8 {
            t[r][c] = s_box(s[r][c]);
        }
    }
    t
}

// 4.2.2, table 2: how far row r turns left, at blocks of 256 bits.
fn shift_of(r: usize) -> usize
    requires { r < 4 }
    ensures { result ≡ shift_of r }
{
    match r {
        0 => 0,
        1 => 1,
        2 => 3,
        _ => 4,
    }
}

// 4.2.2: each row turned.
fn shift_row(s: [[u8; 8]; 4]) -> [[u8; 8]; 4]
    ensures { result ≡ shift_row s }
{
    let mut t = s;
    for r in 0..4 {
        for c in 0..8 {
            t[r][c] = s[r][(c + shift_of(r)) % 8];
        }
    }
    t
}

// 4.2.3: one byte of a mixed column, from the column's bytes from that row on downwards.
fn mixed_byte(a: u8, b: u8, c: u8, d: u8) -> u8
    ensures { result ≡ mixed_byte a b c d }
{
    times(2, a) ^ times(3, b) ^ c ^ d
}

// 4.2.3: each column times 03 x^3 + 01 x^2 + 01 x + 02.
fn mix_column(s: [[u8; 8]; 4]) -> [[u8; 8]; 4]
    ensures { result ≡ mix_column s }
{
    let mut t = s;
    for r in 0..4 {
        for c in 0..8 {
            t[r][c] = mixed_byte(
                s[r][c],
                s[(r + 1) % 4][c],
                s[(r + 2) % 4][c],
                s[(r + 3) % 4][c],
            );
        }
    }
    t
}

// 4.2.4: round n's key is words 8 n to 8 n + 7, one to a column.
pub fn add_round_key(s: [[u8; 8]; 4], w: [[u8; 4]; 120], n: usize) -> [[u8; 8]; 4]
    requires { n < 15 }
    ensures { result ≡ add_round_key (words_of w) n s }
{
    let mut t = s;
    for r in 0..4 {
        for c in 0..8 {
            t[r][c] = s[r][c] ^ w[8 * n + c][r];
        }
    }
    t
}

// 4.2: Round.
pub fn round(s: [[u8; 8]; 4], w: [[u8; 4]; 120], n: usize) -> [[u8; 8]; 4]
    requires { n < 15 }
    ensures { result ≡ round_of (words_of w) n s }
{
    add_round_key(mix_column(shift_row(byte_sub(s))), w, n)
}

// 4.2: FinalRound, which mixes no column.
pub fn final_round(s: [[u8; 8]; 4], w: [[u8; 4]; 120], n: usize) -> [[u8; 8]; 4]
    requires { n < 15 }
    ensures { result ≡ final_round (words_of w) n s }
{
    add_round_key(shift_row(byte_sub(s)), w, n)
}
