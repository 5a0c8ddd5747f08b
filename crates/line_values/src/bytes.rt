// Bytes by two lower-case hex digits each.
ghost use Rattle.std.specs.Prelude.{true, ◌≡◌, ◌+◌, ◌*◌, ◌/◌, length};
ghost use Rattle.forms.specs.Hexes.{is_hex, hex_value};
ghost use Rattle.line_values.specs.Parts.{all_hex, are_bytes, bytes_of};

use hex_reading::hex_value;

fn all_hex(s: &[u8]) -> bool
    ensures { result ≡ all_hex s.now }
{
    s.iter().all(|&c| hex_value(c).is_some())
}

// Is the text one byte or more?
#[tactic(auto, unfolding(crate::specs::Parts::are_bytes))]
pub fn are_bytes(s: &[u8]) -> bool
    ensures { result ≡ are_bytes s.now }
{
    !s.is_empty() && s.len() % 2 == 0 && all_hex(s)
}

// The value of a digit. It has one, so that the 0 stands for no answer: it leaves no branch that could fail, and a loop
// over digits takes many at once.
fn value_of(c: u8) -> u8
    requires { is_hex c ≡ true }
    ensures { result ≡ hex_value c }
{
    hex_value(c).unwrap_or(0)
}

// The byte of two digits.
fn byte_of(high: u8, low: u8) -> u8
    requires { (is_hex high ≡ true) × (is_hex low ≡ true) }
    ensures { result ≡ hex_value high * 16 + hex_value low }
{
    value_of(high) * 16 + value_of(low)
}

// The bytes of a text, into a buffer of as many.
#[tactic(auto, using(crate::proofs::Hexes::inside))]
pub fn read_bytes(s: &[u8], buf: &mut [u8])
    requires { (are_bytes s.now ≡ true) × (length buf.old ≡ length s.now / 2) }
    ensures { buf.new ≡ bytes_of s.now }
{
    for (i, byte) in buf.iter_mut().enumerate() {
        *byte = byte_of(s[2 * i], s[2 * i + 1]);
    }
}
