// A case by its line: algorithm, key, initial value, start, length, skip and buffer.
#![tactic(auto)]

ghost use Rattle.std.specs.Prelude.{true, ◌≡◌, ◌/◌, length};
ghost use Rattle.refusals.specs.Refused.{number_of as refusal_number};
ghost use Rattle.lines.specs.Line.{part};
ghost use Rattle.line_values.specs.Parts.{number_of, are_bytes, bytes_of};
ghost use Rattle.case_reader.specs.Case.{is_number, last_part, numbers_readable, bytes_readable, is_readable, case_of, refusal_of, Accepted};

use bench::keyed_refusal;
use line_values::bytes::{are_bytes, read_bytes};
use line_values::number::read_number;
use lines::{after_spaces, part};
use refusals::Refusal;

fn is_number(line: &[u8], k: usize) -> bool
    ensures { result ≡ is_number k line.now }
{
    read_number(part(line, k)).is_some()
}

// The number that a part is, or 0.
pub fn value(line: &[u8], k: usize) -> u64
    ensures { result ≡ (number_of (part k line.now)).value }
{
    read_number(part(line, k)).unwrap_or(0)
}

// How many bytes a part has.
fn size(line: &[u8], k: usize) -> usize
    ensures { result ≡ length (part k line.now) / 2 }
{
    part(line, k).len() / 2
}

// How many bytes the buffer has.
pub fn buffer_size(line: &[u8]) -> usize
    ensures { result ≡ length (last_part line.now) / 2 }
{
    after_spaces(line, 6).len() / 2
}

#[tactic(auto, unfolding(crate::specs::Case::numbers_readable))]
fn numbers_readable(line: &[u8]) -> bool
    ensures { result ≡ numbers_readable line.now }
{
    is_number(line, 0) && is_number(line, 3) && is_number(line, 4) && is_number(line, 5)
}

fn is_bytes(line: &[u8], k: usize) -> bool
    ensures { result ≡ are_bytes (part k line.now) }
{
    are_bytes(part(line, k))
}

fn bytes_readable(line: &[u8]) -> bool
    ensures { result ≡ bytes_readable line.now }
{
    is_bytes(line, 1) && is_bytes(line, 2) && are_bytes(after_spaces(line, 6))
}

// Has the line the form of a case?
#[tactic(auto, unfolding(crate::specs::Case::is_readable))]
pub fn is_readable(line: &[u8]) -> bool
    ensures { result ≡ is_readable line.now }
{
    numbers_readable(line) && bytes_readable(line)
}

pub fn case_refusal(line: &[u8]) -> Result<(), Refusal>
    ensures { refusal_number result ≡ refusal_of (case_of line.now) }
{
    keyed_refusal(
        value(line, 0),
        size(line, 1),
        size(line, 2),
        buffer_size(line),
        value(line, 3) as usize,
        value(line, 4) as usize,
        value(line, 5) as usize,
    )
}

// The N bytes of a part.
fn bytes_of<const N: usize>(line: &[u8], k: usize) -> [u8; N]
    requires { (are_bytes (part k line.now) ≡ true) × (N ≡ length (part k line.now) / 2) }
    ensures { result ≡ bytes_of (part k line.now) }
{
    let mut bytes = [0; N];
    read_bytes(part(line, k), &mut bytes);
    bytes
}

#[tactic(auto, unfolding(crate::specs::Case::case_of))]
pub fn key_of(line: &[u8]) -> [u8; 24]
    requires { Accepted line.now }
    ensures { result ≡ (case_of line.now).key }
{
    bytes_of(line, 1)
}

#[tactic(auto, unfolding(crate::specs::Case::case_of))]
pub fn iv_of(line: &[u8]) -> [u8; 10]
    requires { Accepted line.now }
    ensures { result ≡ (case_of line.now).iv }
{
    bytes_of(line, 2)
}
