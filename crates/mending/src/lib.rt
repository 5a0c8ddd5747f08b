// A damaged record sheet is mended (document 02, [12]).
#![tactic(auto)]

mod changes;

ghost use Rattle.std.specs.Prelude.{◌≡◌, false};
ghost use Rattle.refusals.specs.Refused.{number_of};
ghost use Rattle.sheet_faults.specs.Sheet.{sheet_bad};
ghost use Rattle.mending.specs.Changes.{is_record};
ghost use Rattle.mending.specs.Answer.{length_of, mend_as, mend_out, print_as, print_out};

use changes::put_changes;
use mended_text::put_text;
use record_reader::read_record;
use refusals::Refusal;
use sheet_faults::{is_form_two, sheet_bad};
use writing::{put_bytes, put_line};

// What is printed fits a buffer of this many bytes.
pub const ROOM: usize = 218;

// A mended text is at most 100 bytes longer than its sheet of 4,096, and the changes are 81.
const SHEET: usize = 4277;

// Is a text one record and nothing after it?
#[tactic(auto, unfolding(crate::specs::Changes::is_record))]
fn is_record(s: &[u8]) -> bool
    ensures { result ≡ is_record s.now }
{
    match read_record(s) {
        Ok(record) => record.used == s.len(),
        Err(_) => false,
    }
}

// The mended sheet of a text whose names are right. Apart, so that a text that is refused for its names sets no memory first.
fn mend_values(text: &[u8], buffer: &mut [u8]) -> Result<usize, Refusal>
    requires { sheet_bad text.now ≡ false }
    ensures { mend_as (number_of result) (length_of result) buffer.new ≡ mend_out text.now buffer.old }
{
    let two = is_form_two(text);
    let mut sheet = [0u8; SHEET];
    let end = put_text(&mut sheet, text, two);
    if !is_record(&sheet[..end]) {
        return Err(Refusal::SheetValueBad);
    }
    let length = put_changes(&mut sheet, end, text, two);
    if buffer.len() < length {
        return Err(Refusal::RecordTooLong);
    }
    put_bytes(buffer, 0, &sheet[..length]);
    Ok(length)
}

// The mended sheet, at the front of the buffer, and its length. The bytes after it stay; a refused sheet leaves them all.
pub fn mend(text: &[u8], buffer: &mut [u8]) -> Result<usize, Refusal>
    ensures { mend_as (number_of result) (length_of result) buffer.new ≡ mend_out text.now buffer.old }
{
    if sheet_bad(text) {
        return Err(Refusal::SheetNamesBad);
    }
    mend_values(text, buffer)
}

// What the program prints of a text, at the front of the buffer, and its length. A smaller buffer than `ROOM` stays as it is, with length 0.
pub fn print(text: &[u8], buffer: &mut [u8]) -> usize
    ensures { print_as result buffer.new ≡ print_out text.now buffer.old }
{
    if buffer.len() < ROOM {
        return 0;
    }
    match mend(text, buffer) {
        Ok(length) => length,
        Err(refusal) => put_line(buffer, 0, b"refused=", u64::from(refusal.number())),
    }
}

// Mends a text into `out`, and leaves the length of the mended sheet in `written`.
#[unsafe(no_mangle)]
pub extern "C" fn card_mend(text: &[u8], out: &mut [u8], written: &mut usize) -> u8
    ensures { mend_as result written.new out.new ≡ mend_out text.now out.old }
{
    match mend(text, out) {
        Ok(length) => {
            *written = length;
            refusals::DONE
        }
        Err(refusal) => {
            *written = 0;
            refusal.number()
        }
    }
}
