// Key records as text, for C.
ghost use Rattle.std.specs.Prelude.{◌≡◌};
ghost use Rattle.record_reader.specs.Record.{record_read};
ghost use Rattle.faces.specs.Faces.{asking, read_as, read_out, written_as, written_out};

use faces::{asked_for, shown_numbers};
use record_reader::{bad_text, read_lines, starts_form};
use refusals::Refusal;

// Reads one record from the front of a text: leaves its number and fields in `shown`, its key in `key`, and how many bytes it took in
// `used`. On refusal 15 `line` and `column` say where the first byte stands at which no good record goes on, and zeros are left elsewhere.
#[unsafe(no_mangle)]
pub extern "C" fn card_record_read(
    text: &[u8],
    shown: &mut [u64; 8],
    key: &mut [u8; 24],
    used: &mut usize,
    line: &mut usize,
    column: &mut usize,
) -> u8
    ensures { read_as result shown.new key.new used.new line.new column.new
        ≡ read_out (record_read text.now) }
{
    match read_lines(text, starts_form(text)) {
        Ok(record) => {
            let bytes = record.key;
            *shown = shown_numbers(record.number, record.fields);
            *key = bytes;
            *used = record.used;
            *line = 0;
            *column = 0;
            0
        }
        Err(wrong) => {
            let bad = bad_text(text, wrong.place);
            *shown = [0u64; 8];
            *key = [0u8; 24];
            *used = 0;
            *line = bad.line;
            *column = bad.column;
            Refusal::RecordTextBad.number()
        }
    }
}

// Writes a record to the front of a buffer, keeps the bytes after it, and leaves the text's length in `length`.
#[unsafe(no_mangle)]
pub extern "C" fn card_record_write(
    number: u64,
    version: u16,
    algorithm: u64,
    usage: u64,
    side: u64,
    place: u64,
    mcc: u64,
    mnc: u64,
    key: &[u8; 24],
    buf: &mut [u8],
    length: &mut usize,
) -> u8
    ensures { written_as result length.new buf.new
        ≡ written_out number (asking version algorithm usage side place mcc mnc) key.now buf.old }
{
    let asked = asked_for(version, algorithm, usage, side, place, mcc, mnc);
    match record_writer::write_record(number, asked, *key, buf) {
        Ok(written) => {
            *length = written;
            0
        }
        Err(refusal) => {
            *length = 0;
            refusal.number()
        }
    }
}
