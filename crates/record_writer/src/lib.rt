// Key records written as text (document 01, "Key records"), at the front of a buffer.
#![tactic(auto)]

ghost use Rattle.std.specs.Prelude.{true, List, ◌≡◌, ℕ, ◌+◌, length};
ghost use Rattle.refusals.specs.Refused.{number_of};
ghost use Rattle.fields.specs.Fields.{stored_of};
ghost use Rattle.writing.specs.Text.{digits, hex_text, line_text};
ghost use Rattle.record_text.specs.Text.{last_lines, record_text};
ghost use Rattle.writing.specs.Writing.{Room, Put};
ghost use Rattle.record_writer.specs.Written.{write_refusal, record_written_as, record_written, buffer_written};

use fields::{Asked, is_algorithm, is_slot_number, rights_refusal};
use record_text::use_word;
use refusals::Refusal;
use writing::{digit_count, put_bytes, put_hex, put_line};

// The line of a key.
#[tactic(auto, using(crate::proofs::Puts::put_steps))]
fn put_key(buffer: &mut [u8], at: usize, key: [u8; 24]) -> usize
    requires { Room buffer.old at (line_text "key=" (hex_text key)) }
    ensures { Put buffer.old at (line_text "key=" (hex_text key)) buffer.new result }
{
    let value = put_bytes(buffer, at, b"key=");
    let end = put_hex(buffer, value, &key);
    put_bytes(buffer, end, b"\n")
}

// The length of a text: what all have, and five numbers whose digits vary.
#[tactic(auto, using(crate::proofs::Lengths::digit_steps))]
fn text_length(number: u64, asked: Asked) -> usize
    ensures { result
        ≡ 119 + (length (digits number) + (length (digits asked.version) + (length (digits asked.place) + (length (digits asked.mcc) + length (digits asked.mnc))))) }
{
    let codes = digit_count(asked.mcc) + digit_count(asked.mnc);
    let place = digit_count(asked.place);
    119 + (digit_count(number) + (digit_count(asked.version as u64) + (place + codes)))
}

// Refusals 7, 1, 10, 11, 20, 17, in this order. The key takes no part.
#[tactic(auto, using(crate::proofs::Refusals::write_steps), unfolding(crate::specs::Written::write_refusal))]
fn write_refusal(number: u64, asked: Asked, room: usize) -> Result<(), Refusal>
    ensures { (key : List ℕ) → length key ≡ 24 → number_of result ≡ write_refusal number asked key room }
{
    Refusal::SlotNumberBad.when(!is_slot_number(number))?;
    Refusal::AlgorithmUnknown.when(!is_algorithm(asked.algorithm))?;
    rights_refusal(asked)?;
    Refusal::RecordTooLong.when(room < text_length(number, asked))
}

// The lines from the side on.
#[tactic(auto, using(crate::proofs::Puts::put_steps))]
fn put_last(buffer: &mut [u8], at: usize, asked: Asked, key: [u8; 24]) -> usize
    requires { Room buffer.old at (last_lines true (stored_of asked) key) }
    ensures { Put buffer.old at (last_lines true (stored_of asked) key) buffer.new result }
{
    let place = put_line(buffer, at, b"side=", asked.side);
    let mcc = put_line(buffer, place, b"place=", asked.place);
    let mnc = put_line(buffer, mcc, b"mcc=", asked.mcc);
    let last = put_line(buffer, mnc, b"mnc=", asked.mnc);
    put_key(buffer, last, key)
}

// The ten lines, for a buffer that has room for them.
#[tactic(auto, using(crate::proofs::Puts::put_steps), unfolding(record_text::specs::Text::form_text, record_text::specs::Text::lines_text))]
fn put_record(buffer: &mut [u8], number: u64, asked: Asked, key: [u8; 24]) -> usize
    requires { Room buffer.old 0 (record_text number (stored_of asked) key) }
    ensures { Put buffer.old 0 (record_text number (stored_of asked) key) buffer.new result }
{
    let first = put_bytes(buffer, 0, b"form=2\n");
    let version = put_line(buffer, first, b"number=", number);
    let algorithm = put_line(buffer, version, b"version=", asked.version as u64);
    let usage = put_line(
        buffer,
        algorithm,
        b"alg=",
        algorithms::name(asked.algorithm),
    );
    let side = put_line(buffer, usage, b"use=", use_word(asked.usage));
    put_last(buffer, side, asked, key)
}

// The text of a record, at the front of the buffer, and its length. The bytes after it stay.
#[tactic(auto, using(crate::proofs::Refusals::write_steps), unfolding(crate::specs::Written::record_written, crate::specs::Written::buffer_written))]
pub fn write_record(
    number: u64,
    asked: Asked,
    key: [u8; 24],
    buffer: &mut [u8],
) -> Result<usize, Refusal>
    ensures { (record_written_as result ≡ record_written number asked key buffer.old)
        × (buffer.new ≡ buffer_written number asked key buffer.old) }
{
    write_refusal(number, asked, buffer.len())?;
    Ok(put_record(buffer, number, asked, key))
}
