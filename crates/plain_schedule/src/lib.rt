// The key schedule with six key words, each of four bytes: the proposal, 4.3.
#![tactic(auto)]

ghost use Rattle.std.specs.Prelude.{[], ◌≡◌, ◌<◌, ◌≤◌, ◌-◌, get_or};
ghost use Rattle.std.specs.Int.Bits.{bit_xor};
ghost use Rattle.laws.specs.Lists.{tabulate};
ghost use Rattle.schedule.specs.Schedule.{rot_byte, sub_byte, round_constant, carried, packed, key_word};
ghost use Rattle.plain_schedule.specs.Bytes.{word_of, words_of};

use plain_field::galois::xtime;
use plain_field::s_box::s_box;

// 4.3.1, RotByte: a, b, c, d become b, c, d, a.
fn rot_byte(x: [u8; 4]) -> [u8; 4]
    ensures { word_of result ≡ rot_byte (word_of x) }
{
    [x[1], x[2], x[3], x[0]]
}

// 4.3.1, SubByte: each byte through the S-box.
fn sub_byte(x: [u8; 4]) -> [u8; 4]
    ensures { word_of result ≡ sub_byte (word_of x) }
{
    [s_box(x[0]), s_box(x[1]), s_box(x[2]), s_box(x[3])]
}

// 4.3.1: the round constants 01, 02, 04, .., each x times the one before it.
fn round_constant(n: usize) -> u8
    ensures { result ≡ round_constant n }
{
    let mut c = 1;
    for _ in 0..n {
        c = xtime(c);
    }
    c
}

// The sum of two words.
fn sum(x: [u8; 4], y: [u8; 4]) -> [u8; 4]
    ensures { word_of result ≡ bit_xor (word_of x) (word_of y) }
{
    [x[0] ^ y[0], x[1] ^ y[1], x[2] ^ y[2], x[3] ^ y[3]]
}

// 4.3.1: what goes into word i from the word x before it. Where 6 divides i it is turned and substituted, and the round constant is added to its first byte.
fn carried(i: usize, x: [u8; 4]) -> [u8; 4]
    requires { 6 ≤ i }
    ensures { word_of result ≡ carried i (word_of x) }
{
    if i % 6 == 0 {
        return sum(sub_byte(rot_byte(x)), [round_constant(i / 6 - 1), 0, 0, 0]);
    }
    x
}

// 4.3.1: word i of the key itself.
fn key_word(key: [u8; 24], i: usize) -> [u8; 4]
    requires { i < 6 }
    ensures { word_of result ≡ packed key i }
{
    [key[4 * i], key[4 * i + 1], key[4 * i + 2], key[4 * i + 3]]
}

// 4.3.1: word i is the word six before it, and what the word before it carries.
fn next_word(w: [[u8; 4]; 120], i: usize) -> [u8; 4]
    requires { (6 ≤ i) × (i < 120) }
    ensures { word_of result ≡ bit_xor (word_of (get_or w (i - 6) [])) (carried i (word_of (get_or w (i - 1) []))) }
{
    sum(w[i - 6], carried(i, w[i - 1]))
}

// 4.3.1, KeyExpansion: the key's six words, and then 114 more.
pub fn key_expansion(key: [u8; 24]) -> [[u8; 4]; 120]
    ensures { words_of result ≡ tabulate (key_word key) 0 120 }
{
    let mut w = [[0u8; 4]; 120];
    for i in 0..120 {
        if i < 6 {
            w[i] = key_word(key, i);
        } else {
            w[i] = next_word(w, i);
        }
    }
    w
}
