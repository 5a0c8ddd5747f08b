// The lines of a listing's filled slots. Each writer puts a text into the buffer from a place on, and answers with the place at which it ends.
#![tactic(auto)]

ghost use Rattle.std.specs.Prelude.{true, ◌≡◌, ◌+◌, ◌*◌, ◌≤◌, length};
ghost use Rattle.fields.specs.Fields.{all_in_range, asked_of};
ghost use Rattle.writing.specs.Writing.{Room, Put};
ghost use Rattle.slot_lines.specs.Lines.{codes_text, slot_line, slot_text, slot_lines, longest_line};

use fields::Fields;
use record_text::use_word;
use slots::{Slot, is_filled};
use writing::{put_item, put_line};

// The codes, which end a line.
fn put_codes(buffer: &mut [u8], at: usize, f: Fields) -> usize
    requires { Room buffer.old at (codes_text f) }
    ensures { Put buffer.old at (codes_text f) buffer.new result }
{
    let place = put_item(buffer, at, b" side=", f.side as u64);
    let mcc = put_item(buffer, place, b" place=", f.place as u64);
    let mnc = put_item(buffer, mcc, b" mcc=", f.mcc as u64);
    put_line(buffer, mnc, b" mnc=", f.mnc as u64)
}

// The line of a filled slot, for a buffer that has room for the longest.
fn put_slot_line(buffer: &mut [u8], at: usize, number: u64, f: Fields) -> usize
    requires { (at + longest_line ≤ length buffer.old) × (number ≤ 32) × (all_in_range (asked_of f) ≡ true) }
    ensures { (result ≤ at + longest_line) × Put buffer.old at (slot_line number f) buffer.new result }
{
    let value = f.version as u64;
    let version = put_item(buffer, at, b"number=", number);
    let algorithm = put_item(buffer, version, b" version=", value);
    let usage = put_item(
        buffer,
        algorithm,
        b" alg=",
        algorithms::name(f.algorithm as u64),
    );
    let side = put_item(buffer, usage, b" use=", use_word(f.usage as u64));
    put_codes(buffer, side, f)
}

// The line of a slot that is filled, and nothing of another.
fn put_slot(buffer: &mut [u8], at: usize, number: u64, slot: Slot) -> usize
    requires { (at + longest_line ≤ length buffer.old) × (number ≤ 32) }
    ensures { (result ≤ at + longest_line) × Put buffer.old at (slot_text number slot) buffer.new result }
{
    if is_filled(slot) {
        put_slot_line(buffer, at, number, slot.fields)
    } else {
        at
    }
}

// The lines of the filled slots, in number order.
pub fn put_slots(buffer: &mut [u8], at: usize, table: [Slot; 32]) -> usize
    requires { at + 32 * longest_line ≤ length buffer.old }
    ensures { (result ≤ at + 32 * longest_line) × Put buffer.old at (slot_lines 1 table) buffer.new result }
{
    let mut end = at;
    for (i, slot) in table.iter().enumerate() {
        end = put_slot(buffer, end, i as u64 + 1, *slot);
    }
    end
}
