// Bytes as elements of GF(2^8): the proposal, 2.1.
ghost use Rattle.std.specs.Prelude.{◌≡◌, ◌%◌, eqb};
ghost use Rattle.laws.specs.Choice.{pick};
ghost use Rattle.gf256.specs.Field.{times_z, times, inverse};

// 2.1.3, `xtime`: b times x, a shift. Where the bit of x^7 goes out, it is x^8 = x^4 + x^3 + x + 1, which is 1b.
pub fn xtime(b: u8) -> u8
    ensures { result ≡ times_z b }
{
    if b < 128 {
        return b * 2;
    }
    (b - 128) * 2 ^ 0x1b
}

// b where a has the term 1, else nothing.
fn term(a: u8, b: u8) -> u8
    ensures { result ≡ pick (eqb (a % 2) 1) b 0 }
{
    if a % 2 == 1 {
        return b;
    }
    0
}

// 2.1.2 and 2.1.3: a times b is the sum of b, x b, x^2 b, .., of those whose power of x is a term of a.
pub fn times(a: u8, b: u8) -> u8
    ensures { result ≡ times a b }
{
    let mut rest = a;
    let mut shifted = b;
    let mut sum = 0;
    for _ in 0..8usize {
        sum = sum ^ term(rest, shifted);
        rest = rest / 2;
        shifted = xtime(shifted);
    }
    sum
}

// 2.1.2: the inverse of x, and 0 for 0. It is x^254 = x^2 x^4 x^8 .. x^128, since x^255 is 1.
pub fn inverse(x: u8) -> u8
    ensures { result ≡ inverse x }
{
    let mut power = x;
    let mut product = 1;
    for _ in 0..7usize {
        power = times(power, power);
        product = times(product, power);
    }
    product
}
