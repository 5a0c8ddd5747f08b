// Decimal numbers of 64 bits without leading zeros.
ghost use Rattle.std.specs.Prelude.{◌≡◌};
ghost use Rattle.line_values.specs.Parts.{as_number, number_of};

use reading::{may_begin, may_follow};

// The number that a whole text is.
pub fn read_number(s: &[u8]) -> Option<u64>
    ensures { as_number result ≡ number_of s.now }
{
    let (&first, rest) = s.split_first()?;
    if !may_begin(0, u64::MAX, first) {
        return None;
    }
    let mut value = (first - b'0') as u64;
    for &b in rest {
        if !may_follow(u64::MAX, value, b) {
            return None;
        }
        value = value * 10 + (b - b'0') as u64;
    }
    Some(value)
}
