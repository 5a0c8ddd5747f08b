// The mended text of a damaged record sheet (document 02, [12]): the ten lines of form 2, each with the value that the sheet has under its
// name. Each writer puts a text into the buffer from a place on, and answers with the place at which it ends.
#![tactic(auto)]

ghost use Rattle.std.specs.Prelude.{[], ◌∷◌, ◌++◌, ◌≡◌};
ghost use Rattle.writing.specs.Writing.{Room, Put};
ghost use Rattle.line_parts.specs.Line.{equals};
ghost use Rattle.line_names.specs.Names.{name_text, number_of};
ghost use Rattle.sheet_faults.specs.Sheet.{lines_of, is_form_two};
ghost use Rattle.mended_text.specs.Text.{lowered, mended_value, gained, value_mended, line_mended, text_mended};

use line_faults::{lower_hex, zeros_dropped};
use line_names::{NAMES, Name};
use sheet_faults::value_named;
use writing::put_bytes;

// A text with A to F as a to f.
fn put_lowered<'a>(buffer: &'a mut [u8], at: usize, bytes: &'a [u8]) -> usize
    requires { Room buffer.old at (lowered bytes.now) }
    ensures { Put buffer.old at (lowered bytes.now) buffer.new result }
{
    for (i, b) in bytes.iter().enumerate() {
        buffer[at + i] = lower_hex(*b);
    }
    at + bytes.len()
}

// The value under a name, mended.
fn put_mended<'a>(buffer: &'a mut [u8], at: usize, name: Name, value: &'a [u8]) -> usize
    requires { Room buffer.old at (mended_value (number_of name) value.now) }
    ensures { Put buffer.old at (mended_value (number_of name) value.now) buffer.new result }
{
    let digits = &value[zeros_dropped(Some(name), value)..];
    if name == Name::Key {
        put_lowered(buffer, at, digits)
    } else {
        put_bytes(buffer, at, digits)
    }
}

// What form 1 gains.
#[tactic(auto, unfolding(crate::specs::Text::gained))]
fn gained(name: Name) -> &'static [u8]
    ensures { result.now ≡ gained (number_of name) }
{
    match name {
        Name::Form => b"2",
        _ => b"0",
    }
}

// The value that the sheet has under a name, or what it gains.
fn put_value<'a>(buffer: &'a mut [u8], at: usize, text: &'a [u8], two: bool, name: Name) -> usize
    requires { Room buffer.old at (value_mended two (lines_of text.now) (number_of name)) }
    ensures { Put buffer.old at (value_mended two (lines_of text.now) (number_of name)) buffer.new result }
{
    if name.is_in(two) {
        put_mended(buffer, at, name, value_named(text, name))
    } else {
        put_bytes(buffer, at, gained(name))
    }
}

// A name and `=`.
fn put_name(buffer: &mut [u8], at: usize, name: Name) -> usize
    requires { Room buffer.old at (name_text (number_of name) ++ (equals ∷ [])) }
    ensures { Put buffer.old at (name_text (number_of name) ++ (equals ∷ [])) buffer.new result }
{
    let end = put_bytes(buffer, at, name.text());
    put_bytes(buffer, end, b"=")
}

// A line.
fn put_line<'a>(buffer: &'a mut [u8], at: usize, text: &'a [u8], two: bool, name: Name) -> usize
    requires { Room buffer.old at (line_mended two (lines_of text.now) (number_of name)) }
    ensures { Put buffer.old at (line_mended two (lines_of text.now) (number_of name)) buffer.new result }
{
    let value = put_name(buffer, at, name);
    let end = put_value(buffer, value, text, two, name);
    put_bytes(buffer, end, b"\n")
}

// The ten lines, for a buffer that has room for them.
pub fn put_text<'a>(buffer: &'a mut [u8], text: &'a [u8], two: bool) -> usize
    requires { (two ≡ is_form_two (lines_of text.now)) × Room buffer.old 0 (text_mended (lines_of text.now)) }
    ensures { Put buffer.old 0 (text_mended (lines_of text.now)) buffer.new result }
{
    let mut at = 0;
    for name in &NAMES {
        at = put_line(buffer, at, text, two, *name);
    }
    at
}
