// Key records read from text (document 01, "Key records"): one from the front of a text.
#![tactic(auto)]

ghost use Rattle.std.specs.Prelude.{Err, ◌≡◌, ◌≤◌, length};
ghost use Rattle.laws.specs.Choice.{pick};
ghost use Rattle.forms.specs.Form.{done, named, read_at};
ghost use Rattle.forms.specs.Decimals.{decimal};
ghost use Rattle.reading.specs.Reading.{onward, answer, reading_of};
ghost use Rattle.record_reader.specs.Lines.{key_reading_of, key_answer, use_form, algorithm_form, key_form};
ghost use Rattle.record_reader.specs.Record.{record_form, starts_form, opened, outcome_of, read_of, refused_at, record_read};

use algorithms::name;
use fields::Fields;
use hex_reading::read_byte;
use lines::{column_of, line_of};
use reading::{Found, ReadTo, WrongAt, read_line, read_literal, read_one_of};
use record_text::use_word;

// A key and the place after it.
#[derive(Clone, Copy)]
struct KeyFound {
    key: [u8; 24],
    place: usize,
}

// SEND, RECV or BOTH, ended by LF.
#[tactic(auto, unfolding(crate::specs::Lines::use_form))]
fn read_use(s: &[u8], before: ReadTo) -> ReadTo
    ensures { reading_of result ≡ answer (onward (reading_of before) use_form s.now) }
{
    read_one_of(s, before, 1, use_word(1), use_word(2), use_word(3))
}

// TEA5, TEA6 or TEA7, ended by LF.
#[tactic(auto, unfolding(crate::specs::Lines::algorithm_form))]
fn read_algorithm(s: &[u8], before: ReadTo) -> ReadTo
    ensures { reading_of result ≡ answer (onward (reading_of before) algorithm_form s.now) }
{
    read_one_of(s, before, 5, name(5), name(6), name(7))
}

// A key, ended by LF.
fn read_key(s: &[u8], before: ReadTo) -> Result<KeyFound, WrongAt>
    ensures { key_reading_of result ≡ key_answer (onward (reading_of before) key_form s.now) }
{
    let mut key = [0u8; 24];
    let mut last = before;
    for b in key.iter_mut() {
        let read = read_byte(s, last)?;
        *b = read.value as u8;
        last = Ok(read);
    }
    let end = read_literal(s, last, b"\n")?;
    Ok(KeyFound {
        key,
        place: end.place,
    })
}

// A record, and how many bytes it took.
#[derive(Clone, Copy)]
pub struct Record {
    pub used: usize,
    pub number: u64,
    pub fields: Fields,
    pub key: [u8; 24],
}

// Line and column of the first byte that is wrong.
#[derive(Clone, Copy, Debug, PartialEq, Eq)]
pub struct BadText {
    pub line: usize,
    pub column: usize,
}

// Of a text that is wrong at a place.
pub fn bad_text(text: &[u8], place: usize) -> BadText
    requires { place ≤ length text.now }
    ensures { read_of (Err result) ≡ refused_at text.now place }
{
    BadText {
        line: line_of(text, place),
        column: column_of(text, place),
    }
}

// Is the text one of form 2? Its first byte decides.
pub fn starts_form(text: &[u8]) -> bool
    ensures { result ≡ starts_form text.now }
{
    text.starts_with(b"f")
}

// The line that says form 2, or nothing.
#[tactic(auto, unfolding(crate::specs::Record::opened))]
fn read_form(text: &[u8], two: bool) -> ReadTo
    ensures { reading_of result ≡ opened two text.now }
{
    let front = Ok(Found { value: 0, place: 0 });
    if two {
        read_literal(text, front, b"form=2\n")
    } else {
        front
    }
}

// The line of a network code, or nothing and 0.
#[tactic(auto, unfolding(forms::specs::Form::literal))]
fn read_code<'a>(text: &'a [u8], before: ReadTo, two: bool, name: &'a [u8], high: u64) -> ReadTo
    ensures { reading_of result ≡ answer (onward (reading_of before) (pick two (named name.now (decimal 0 high)) (done 0)) text.now) }
{
    if two {
        read_line(text, before, name, 0, high)
    } else {
        read_literal(text, before, b"")
    }
}

// The record of a form at the front of a text, or the place of the first byte that is wrong.
pub fn read_lines(text: &[u8], two: bool) -> Result<Record, WrongAt>
    ensures { outcome_of result ≡ read_at (record_form two) text.now 0 }
{
    let number = read_line(text, read_form(text, two), b"number=", 1, 32)?;
    let version = read_line(text, Ok(number), b"version=", 0, 65535)?;
    let algorithm = read_algorithm(text, read_literal(text, Ok(version), b"alg="))?;
    let usage = read_use(text, read_literal(text, Ok(algorithm), b"use="))?;
    let side = read_line(text, Ok(usage), b"side=", 0, 1)?;
    let place = read_line(text, Ok(side), b"place=", 0, 79)?;
    let mcc = read_code(text, Ok(place), two, b"mcc=", 1023)?;
    let mnc = read_code(text, Ok(mcc), two, b"mnc=", 16383)?;
    let end = read_key(text, read_literal(text, Ok(mnc), b"key="))?;
    let key = end.key;
    Ok(Record {
        used: end.place,
        number: number.value,
        fields: Fields {
            version: version.value as u16,
            algorithm: algorithm.value as u8,
            usage: usage.value as u8,
            side: side.value as u8,
            place: place.value as u8,
            mcc: mcc.value as u16,
            mnc: mnc.value as u16,
        },
        key,
    })
}

// One record from the front of a text. What follows it is not judged. (It lays the record, and so its key, once more on the stack than `read_lines`,
// which the call for C takes.)
pub fn read_record(text: &[u8]) -> Result<Record, BadText>
    ensures { read_of result ≡ record_read text.now }
{
    match read_lines(text, starts_form(text)) {
        Ok(record) => Ok(record),
        Err(wrong) => Err(bad_text(text, wrong.place)),
    }
}
