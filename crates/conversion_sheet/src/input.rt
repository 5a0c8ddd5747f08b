// The parts of the program's input: a text up to its first empty line, what stands behind it, and the lines of pairs.
ghost use Rattle.std.specs.Prelude.{◌≡◌, ◌≤◌, length, get_or};
ghost use Rattle.reading.specs.Reading.{reading_of};
ghost use Rattle.conversion_sheet.specs.Input.{text_size, first_text, behind, spaced_number, before_read, named_by, line_size, pair_numbers};

use arrayvec::ArrayVec;
use reading::{Found, ReadTo, WrongAt, may_begin, may_follow, read_line, read_literal};

// How many bytes stand before the first empty line.
fn text_size(s: &[u8]) -> usize
    ensures { (result ≡ text_size s.now) × (result ≤ length s.now) }
{
    let mut starts = true;
    for (i, b) in s.iter().enumerate() {
        let ends = *b == b'\n';
        if starts && ends {
            return i;
        }
        starts = ends;
    }
    s.len()
}

// A text up to its first empty line, and what stands behind that line.
pub fn split_text(s: &[u8]) -> (&[u8], &[u8])
    ensures first { result.0.now ≡ first_text s.now }
    ensures behind { result.1.now ≡ behind s.now }
{
    let size = text_size(s);
    (&s[..size], s.get(size + 1..).unwrap_or(&[]))
}

// A byte, or 0 behind the end.
fn byte_at(s: &[u8], at: usize) -> u8
    ensures { result ≡ get_or s.now at 0 }
{
    s.get(at).copied().unwrap_or(0)
}

// A number of a record with a space behind it, of its first three bytes; the place is that behind it in a line.
fn spaced_number(b: u8, c: u8, d: u8) -> ReadTo
    ensures { reading_of result ≡ spaced_number b c d }
{
    if !may_begin(1, 32, b) {
        return Err(WrongAt { place: 0 });
    }
    let digit = (b - b'0') as u64;
    if c == b' ' {
        return Ok(Found {
            value: digit,
            place: 9,
        });
    }
    if !may_follow(32, digit, c) || d != b' ' {
        return Err(WrongAt { place: 0 });
    }
    Ok(Found {
        value: digit * 10 + (c - b'0') as u64,
        place: 10,
    })
}

// `before=B` and a space, at the front of a text.
fn read_before(s: &[u8]) -> ReadTo
    ensures { reading_of result ≡ before_read s.now }
{
    let front = Ok(Found { value: 0, place: 0 });
    match read_literal(s, front, b"before=") {
        Ok(_) => spaced_number(byte_at(s, 7), byte_at(s, 8), byte_at(s, 9)),
        Err(_) => Err(WrongAt { place: 0 }),
    }
}

// The numbers that a line of pairs names.
#[derive(Clone, Copy)]
struct Named {
    pub before: u64,
    pub after: u64,
}

// Of the line at the front of a text. A line of another form names 0 twice, which is no record's number.
fn named_by(s: &[u8]) -> Named
    ensures { result ≡ named_by s.now }
{
    let before = read_before(s);
    match (before, read_line(s, before, b"after=", 1, 32)) {
        (Ok(before), Ok(after)) => Named {
            before: before.value,
            after: after.value,
        },
        _ => Named {
            before: 0,
            after: 0,
        },
    }
}

// The bytes of the first line, with its LF.
fn line_size(s: &[u8]) -> usize
    ensures { (result ≡ line_size s.now) × (result ≤ length s.now) }
{
    s.iter()
        .position(|b| *b == b'\n')
        .map_or(s.len(), |i| i + 1)
}

// A line above 32 is one pair too many, whatever follows it.
const MOST_LINES: usize = 33;

// The numbers of the pairs, a line each, of at most 33 lines.
pub fn read_pairs(s: &[u8]) -> ArrayVec<u64, 66>
    ensures { result.items ≡ pair_numbers s.now }
{
    let mut numbers = ArrayVec::new();
    let mut rest = s;
    for _ in 0..MOST_LINES {
        if rest.is_empty() {
            break;
        }
        let named = named_by(rest);
        numbers.push(named.before);
        numbers.push(named.after);
        rest = &rest[line_size(rest)..];
    }
    numbers
}
