// The inverse steps that take each byte of a state, and each column.
ghost use Rattle.std.specs.Prelude.{◌≡◌};
ghost use Rattle.inv_parts.specs.Steps.{inv_byte_sub, inv_mix_column};

use inv_bytes::{InvSBox, inv_mixed_byte};

// No one function with `byte_sub`: a trait of the two S-boxes would stand for one call of each.
pub fn inv_byte_sub(s: [[u8; 8]; 4], table: &InvSBox) -> [[u8; 8]; 4]
    ensures { result ≡ inv_byte_sub s }
{
    let mut t = s;
    for r in 0..4 {
        for c in 0..8 {
            t[r][c] = table.substitute(s[r][c]);
        }
    }
    t
}

pub fn inv_mix_column(s: [[u8; 8]; 4]) -> [[u8; 8]; 4]
    ensures { result ≡ inv_mix_column s }
{
    let mut t = s;
    for c in 0..8 {
        let x = s[0][c];
        let y = s[1][c];
        let z = s[2][c];
        let u = s[3][c];
        t[0][c] = inv_mixed_byte(x, y, z, u);
        t[1][c] = inv_mixed_byte(y, z, u, x);
        t[2][c] = inv_mixed_byte(z, u, x, y);
        t[3][c] = inv_mixed_byte(u, x, y, z);
    }
    t
}
