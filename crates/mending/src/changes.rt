// The changes that were made, a line for each.
ghost use Rattle.std.specs.Prelude.{◌≡◌};
ghost use Rattle.writing.specs.Writing.{Room, Put};
ghost use Rattle.sheet_faults.specs.Sheet.{lines_of, is_form_two};
ghost use Rattle.mending.specs.Changes.{change_text, changes_text};

use line_faults::Fault;
use sheet_faults::{any_fault, in_order};
use writing::put_bytes;

// A line for a change, if it was made.
fn put_change<'a>(buffer: &'a mut [u8], at: usize, made: bool, name: &'a [u8]) -> usize
    requires { Room buffer.old at (change_text made name.now) }
    ensures { Put buffer.old at (change_text made name.now) buffer.new result }
{
    if !made {
        return at;
    }
    let value = put_bytes(buffer, at, b"changed=");
    let end = put_bytes(buffer, value, name);
    put_bytes(buffer, end, b"\n")
}

// A line for each change, in the document's order.
pub fn put_changes<'a>(buffer: &'a mut [u8], at: usize, text: &'a [u8], two: bool) -> usize
    requires { (two ≡ is_form_two (lines_of text.now)) × Room buffer.old at (changes_text (lines_of text.now)) }
    ensures { Put buffer.old at (changes_text (lines_of text.now)) buffer.new result }
{
    let at = put_change(buffer, at, any_fault(text, Fault::Crlf), b"crlf");
    let at = put_change(buffer, at, any_fault(text, Fault::Hex), b"hex");
    let at = put_change(buffer, at, any_fault(text, Fault::Zeros), b"zeros");
    let at = put_change(buffer, at, any_fault(text, Fault::Spaces), b"spaces");
    let at = put_change(buffer, at, !in_order(text), b"order");
    put_change(buffer, at, !two, b"form")
}
