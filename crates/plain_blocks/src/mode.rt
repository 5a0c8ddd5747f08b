// The mode key CKM and the mode value IVM: clauses 5.3, 6.3, 7.3.
ghost use Rattle.std.specs.Prelude.{◌≡◌, ◌+◌, ◌*◌, ◌<◌, length};
ghost use Rattle.tea.specs.Mixing.{mixed_value};
ghost use Rattle.tea.specs.Mode.{combined, mode_by, mode_of};

use algorithms::{combining_table, digit};
use plain_mixing::byte;
use tea::mode::Mode;

// Four bits and four more as a byte. Here and in `combine` the plain engine has what crate `tea` has too, and shares none of it: it is read by itself.
fn join_halves(high: u8, low: u8) -> u8
    requires { (high < 16) × (low < 16) }
    ensures { result ≡ high * 16 + low }
{
    high * 16 + low
}

// f of four bits of a byte of CK and four of a byte of IVX.
fn combine(f: &[u8; 256], c: u8, v: u8) -> u8
    requires { (c < 16) × (v < 16) }
    ensures { result ≡ combined f.now c v }
{
    f[join_halves(c, v) as usize]
}

// By the lent table of f, with the key where it lies, so that no copy of it is made. Byte k of IVX is b[20 + k]. The high halves of two results make a
// byte of CKM, and their low halves a byte of IVM.
fn mode_by(f: &[u8; 256], digit: u8, ck: &[u8], iv: [u8; 10]) -> Mode
    requires { length ck.now ≡ 24 }
    ensures { result ≡ mode_by f.now digit ck.now (mixed_value iv) }
{
    let mut ckm = [0u8; 24];
    let mut ivm = [0u8; 24];
    for k in 0..24 {
        let v = byte(iv, 20 + k);
        let x = combine(f, ck[k] / 16, v / 16);
        let y = combine(f, ck[k] % 16, v % 16);
        ckm[k] = join_halves(x / 16, y / 16);
        ivm[k] = join_halves(x % 16, y % 16);
    }
    Mode {
        key: ckm,
        value: ivm,
        digit,
    }
}

// f is the standard's table: clauses 5.6, 6.6, 7.6. The key is lent.
pub fn mode_of_lent(algorithm: u64, ck: &[u8], iv: [u8; 10]) -> Mode
    requires { length ck.now ≡ 24 }
    ensures { result ≡ mode_of algorithm ck.now iv }
{
    let f = combining_table(algorithm);
    mode_by(&f, digit(algorithm), ck, iv)
}

// The same of a key by value. No function here calls it: it stays for other callers.
pub fn mode_of(algorithm: u64, ck: [u8; 24], iv: [u8; 10]) -> Mode
    ensures { result ≡ mode_of algorithm ck iv }
{
    mode_of_lent(algorithm, &ck[..], iv)
}
