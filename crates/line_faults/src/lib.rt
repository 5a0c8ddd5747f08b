// What is mended in a line of a damaged record sheet (document 02, [12]).
#![tactic(auto)]

ghost use Rattle.std.specs.Prelude.{◌≡◌};
ghost use Rattle.line_names.specs.Names.{number_found};
ghost use Rattle.line_faults.specs.Faults.{zeros_in, zeros_dropped, is_upper_hex, any_upper_hex, lower_hex, has_fault};

use line_names::{Name, name_of};
use line_parts::{ends_with, is_spaced, leading, value_in};

// What a line may have that is mended.
#[derive(Clone, Copy)]
pub enum Fault {
    Crlf,
    Hex,
    Zeros,
    Spaces,
}

// How many zeros a number begins with that are dropped: its last digit stays.
#[tactic(auto, unfolding(crate::specs::Faults::zeros_in))]
fn zeros_in(value: &[u8]) -> usize
    ensures { result ≡ zeros_in value.now }
{
    leading(&value[..value.len().saturating_sub(1)], b'0')
}

// How many zeros are dropped from the value under a name: no word loses any, nor the key.
#[tactic(auto, unfolding(crate::specs::Faults::zeros_dropped))]
pub fn zeros_dropped(name: Option<Name>, value: &[u8]) -> usize
    ensures { result ≡ zeros_dropped (number_found name) value.now }
{
    if name.is_none_or(|name| name.is_decimal()) {
        zeros_in(value)
    } else {
        0
    }
}

// A to F?
#[tactic(auto, unfolding(crate::specs::Faults::is_upper_hex))]
fn is_upper_hex(b: u8) -> bool
    ensures { result ≡ is_upper_hex b }
{
    matches!(b, b'A'..=b'F')
}

// Has a text a digit A to F?
fn any_upper_hex(s: &[u8]) -> bool
    ensures { result ≡ any_upper_hex s.now }
{
    s.iter().any(|b| is_upper_hex(*b))
}

// A to F become a to f.
#[tactic(auto, unfolding(crate::specs::Faults::lower_hex, crate::specs::Faults::is_upper_hex))]
pub fn lower_hex(b: u8) -> u8
    ensures { result ≡ lower_hex b }
{
    if is_upper_hex(b) {
        b.to_ascii_lowercase()
    } else {
        b
    }
}

// Does a line have a fault?
#[tactic(auto, unfolding(crate::specs::Faults::has_fault))]
pub fn has_fault(line: &[u8], fault: Fault) -> bool
    ensures { result ≡ has_fault fault line.now }
{
    match fault {
        Fault::Crlf => ends_with(line, b'\r'),
        Fault::Hex => name_of(line) == Some(Name::Key) && any_upper_hex(value_in(line)),
        Fault::Zeros => 0 < zeros_dropped(name_of(line), value_in(line)),
        Fault::Spaces => is_spaced(line),
    }
}
