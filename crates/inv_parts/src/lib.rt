// Rows turned back, and the round keys of a schedule mixed back.
#![tactic(auto)]

mod lent;

ghost use Rattle.std.specs.Prelude.{◌≡◌, get_or};
ghost use Rattle.laws.specs.Lists.{tabulate};
ghost use Rattle.inv_parts.specs.Steps.{inv_shift_row};
ghost use Rattle.inv_parts.specs.Schedule.{inv_mixed_word, mixed_back};

use inv_bytes::inv_mixed_byte;
pub use lent::mix_back;
use words::{byte0, byte1, byte2, byte3, join_bytes};

// Rows 1, 2, 3 turn right by 1, 3, 4. A function of both directions would be no plainer: its contract would need a definition of both.
pub fn inv_shift_row(s: [[u8; 8]; 4]) -> [[u8; 8]; 4]
    ensures { result ≡ inv_shift_row s }
{
    let mut t = s;
    for c in 0..8 {
        t[0][c] = s[0][c];
        t[1][c] = s[1][(c + 7) % 8];
        t[2][c] = s[2][(c + 5) % 8];
        t[3][c] = s[3][(c + 4) % 8];
    }
    t
}

// A word as a column, through the inverse column mixing.
fn inv_mixed_word(x: u32) -> u32
    ensures { result ≡ inv_mixed_word x }
{
    let a = byte0(x);
    let b = byte1(x);
    let c = byte2(x);
    let d = byte3(x);
    join_bytes(
        inv_mixed_byte(a, b, c, d),
        inv_mixed_byte(b, c, d, a),
        inv_mixed_byte(c, d, a, b),
        inv_mixed_byte(d, a, b, c),
    )
}

// Of a schedule of 120 words in a lent array, round keys 1 to 13, each of eight words. The first and the last stay.
pub fn mix_schedule_back(w: &mut [u32; 120])
    ensures { w.new ≡ tabulate (λ i. mixed_back i (get_or w.old i 0)) 0 120 }
{
    for i in 8..112 {
        w[i] = inv_mixed_word(w[i]);
    }
}
