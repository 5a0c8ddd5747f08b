// The key schedule with six key words (the Rijndael proposal, 4.3.1): 120 words of 32 bits in a lent array, six words a turn.
#![tactic(auto)]

mod lent;

ghost use Rattle.std.specs.Prelude.{◌≡◌, List, ℕ, ◌<◌, ◌≤◌, ◌+◌, ◌-◌, ◌*◌, get_or};
ghost use Rattle.laws.specs.Lists.{tabulate, Filled};
ghost use Rattle.schedule.specs.Schedule.{rot_byte, sub_byte, round_constant, key_word};

use gf256::SBox;
pub use lent::expand_key;
use words::{byte0, byte1, byte2, byte3, join_bytes};

const ROUND_CONSTANTS: [u8; 19] = *b"\
    \x01\x02\x04\x08\x10\x20\x40\x80\x1b\x36\x6c\xd8\xab\x4d\x9a\x2f\x5e\xbc\x63";

fn round_constant(n: usize) -> u8
    requires { n < 19 }
    ensures { result ≡ round_constant n }
{
    ROUND_CONSTANTS[n]
}

// A word turned by a byte, each byte through the S-box.
fn substituted_word(x: u32, table: &SBox) -> u32
    ensures { result ≡ sub_byte (rot_byte x) }
{
    join_bytes(
        table.substitute(byte1(x)),
        table.substitute(byte2(x)),
        table.substitute(byte3(x)),
        table.substitute(byte0(x)),
    )
}

fn key_words(w: &mut [u32; 120], key: [u8; 24])
    ensures { Filled (key_word key) 0 120 w.new 6 }
{
    for i in 0..6 {
        w[i] = join_bytes(key[4 * i], key[4 * i + 1], key[4 * i + 2], key[4 * i + 3]);
    }
}

// Words 6 k to 6 k + 5: whatever key the words below are of, these are of it too. `last` is word 6 k - 1, and the answer word 6 k + 5.
// The sums of the old words are made first, so that all but one of the new ones wait for the first of them alone.
fn six_words(w: &mut [u32; 120], k: usize, last: u32, table: &SBox) -> u32
    requires { (1 ≤ k) × (k < 20) × (last ≡ get_or w.old (6 * k - 1) 0) }
    ensures { (result ≡ get_or w.new (6 * k + 5) 0) × ((key : List ℕ) → Filled (key_word key) 0 120 w.old (6 * k) → Filled (key_word key) 0 120 w.new (6 * k + 6)) }
{
    let i = 6 * k;
    let x = w[i - 6] ^ (round_constant(k - 1) as u32) * 16777216;
    let y = w[i - 5];
    let p = y ^ w[i - 4];
    let q = p ^ w[i - 3];
    let r = q ^ w[i - 2];
    let s = r ^ last;
    let a = x ^ substituted_word(last, table);
    let f = s ^ a;
    w[i] = a;
    w[i + 1] = y ^ a;
    w[i + 2] = p ^ a;
    w[i + 3] = q ^ a;
    w[i + 4] = r ^ a;
    w[i + 5] = f;
    f
}

fn more_words(w: &mut [u32; 120], table: &SBox)
    ensures { (key : List ℕ) → Filled (key_word key) 0 120 w.old 6 → Filled (key_word key) 0 120 w.new 120 }
{
    let mut last = w[5];
    for k in 1..20 {
        last = six_words(w, k, last, table);
    }
}

// Fills the schedule of a key, for the blocks to come.
pub fn fill_schedule(w: &mut [u32; 120], key: [u8; 24], table: &SBox)
    ensures { w.new ≡ tabulate (key_word key) 0 120 }
{
    key_words(w, key);
    more_words(w, table);
}
