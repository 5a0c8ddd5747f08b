// Shares as fractions in lowest terms.
#![tactic(auto)]

ghost use Rattle.std.specs.Prelude.{◌≡◌};
ghost use Rattle.shares.specs.Share.{gcd, share_of};

// A fraction.
#[derive(Clone, Copy)]
pub struct Share {
    pub top: u64,
    pub bottom: u64,
}

// The greatest common divisor, by Euclid's algorithm.
fn gcd(a: u64, b: u64) -> u64
    ensures { result ≡ gcd a b }
{
    // No `for`: nothing is counted.
    let mut x = a;
    let mut y = b;
    while y != 0 {
        (x, y) = (y, x % y);
    }
    x
}

// The share of a part in a whole, in lowest terms; 0/1 where the whole is 0.
pub fn share_of(part: u64, whole: u64) -> Share
    ensures { result ≡ share_of part whole }
{
    if whole == 0 {
        return Share { top: 0, bottom: 1 };
    }
    let divisor = gcd(part, whole);
    Share {
        top: part / divisor,
        bottom: whole / divisor,
    }
}
