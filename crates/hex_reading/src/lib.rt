// Bytes of a text by two lower-case hex digits each.
#![tactic(auto)]

ghost use Rattle.std.specs.Prelude.{◌≡◌, ◌<◌, IfSome, unwrap_or};
ghost use Rattle.forms.specs.Hexes.{hex_or, half_byte, byte};
ghost use Rattle.reading.specs.Reading.{onward, answer, reading_of};

use reading::{Found, ReadTo, WrongAt};

// The value of a lower-case hex digit.
#[tactic(auto, unfolding(forms::specs::Hexes::hex_or, forms::specs::Hexes::is_hex, forms::specs::Hexes::hex_value))]
pub fn hex_value(c: u8) -> Option<u8>
    ensures value { unwrap_or result 16 ≡ hex_or c }
    ensures small { IfSome result (λ v. v < 16) }
{
    match c {
        b'0'..=b'9' => Some(c - b'0'),
        b'a'..=b'f' => Some(c - b'a' + 10),
        _ => None,
    }
}

// One hex digit.
fn read_half(s: &[u8], before: ReadTo) -> ReadTo
    ensures { reading_of result ≡ answer (onward (reading_of before) half_byte s.now) }
{
    let place = before?.place;
    if s.len() <= place {
        return Err(WrongAt { place });
    }
    match hex_value(s[place]) {
        Some(value) => Ok(Found {
            value: value as u64,
            place: place + 1,
        }),
        None => Err(WrongAt { place }),
    }
}

// A byte by two hex digits.
pub fn read_byte(s: &[u8], before: ReadTo) -> ReadTo
    ensures { reading_of result ≡ answer (onward (reading_of before) byte s.now) }
{
    let high = read_half(s, before)?;
    let low = read_half(s, Ok(high))?;
    Ok(Found {
        value: high.value * 16 + low.value,
        place: low.place,
    })
}
