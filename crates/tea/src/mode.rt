// The mode key and the mode value: clauses 5.3, 6.3, 7.3.
ghost use Rattle.std.specs.Prelude.{◌≡◌, ◌+◌, ◌*◌, ◌<◌};
ghost use Rattle.tea.specs.Mode.{combined, mode_by, mode_of};

use crate::mixing::mixed_value;
use algorithms::{combining_table, digit};

// What the blocks of one keystream are made of: CKM, IVM and the digit of the algorithm.
#[derive(Clone, Copy)]
pub struct Mode {
    pub key: [u8; 24],
    pub value: [u8; 24],
    pub digit: u8,
}

// Two halves of bytes as one byte.
fn join_halves(high: u8, low: u8) -> u8
    requires { (high < 16) × (low < 16) }
    ensures { result ≡ high * 16 + low }
{
    high * 16 + low
}

// f of two halves: one of a byte of CK, and one of a byte of IVX.
fn combine(f: &[u8; 256], high: u8, low: u8) -> u8
    requires { (high < 16) × (low < 16) }
    ensures { result ≡ combined f.now high low }
{
    f[join_halves(high, low) as usize]
}

// The mode of a key and a mixed value, by the lent table of f.
fn mode_by(f: &[u8; 256], digit: u8, ck: [u8; 24], ivx: [u8; 24]) -> Mode
    ensures { result ≡ mode_by f.now digit ck ivx }
{
    let mut ckm = [0u8; 24];
    let mut ivm = [0u8; 24];
    for k in 0..24 {
        let x = combine(f, ck[k] / 16, ivx[k] / 16);
        let y = combine(f, ck[k] % 16, ivx[k] % 16);
        ckm[k] = join_halves(x / 16, y / 16);
        ivm[k] = join_halves(x % 16, y % 16);
    }
    Mode {
        key: ckm,
        value: ivm,
        digit,
    }
}

// The mode of a key and an initial value.
pub fn mode_of(algorithm: u64, ck: [u8; 24], iv: [u8; 10]) -> Mode
    ensures { result ≡ mode_of algorithm ck iv }
{
    let f = combining_table(algorithm);
    mode_by(&f, digit(algorithm), ck, mixed_value(iv))
}
