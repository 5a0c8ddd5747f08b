// Writers of an answer's parts. Each puts a text into the buffer from a place on, and answers with the place at which it ends.
ghost use Rattle.std.specs.Prelude.{◌≡◌, ◌+◌, ◌≤◌, ◌/◌, length};
ghost use Rattle.span.specs.Span.{longest_buffer};
ghost use Rattle.writing.specs.Writing.{Room, Put};
ghost use Rattle.case_reader.specs.Case.{last_part, case_of, Accepted};
ghost use Rattle.cases.specs.Answer.{value_text, mode_text, ciphered_case, buffer_text, accepted_text, answer_room};

use case_reader::{buffer_size, iv_of, key_of, value};
use keystream::Run;
use line_values::bytes::read_bytes;
use lines::after_spaces;
use tea::mixing::mixed_value;
use tea::mode::mode_of;
use writing::{put_bytes, put_hex};

// A value of 24 bytes and a space: 49 bytes.
fn put_value(out: &mut [u8], at: usize, bytes: [u8; 24]) -> usize
    requires { at + 49 ≤ length out.old }
    ensures { (result ≡ at + 49) × Put out.old at (value_text bytes) out.new result }
{
    let end = put_hex(out, at, &bytes);
    put_bytes(out, end, b" ")
}

// Mixed value, mode key and mode value: 147 bytes.
fn put_mode(out: &mut [u8], at: usize, algorithm: u64, ck: [u8; 24], iv: [u8; 10]) -> usize
    requires { at + 147 ≤ length out.old }
    ensures { Put out.old at (mode_text algorithm ck iv) out.new result }
{
    let mixed = mixed_value(iv);
    let mode = mode_of(algorithm, ck, iv);
    let key_at = put_value(out, at, mixed);
    let value_at = put_value(out, key_at, mode.key);
    put_value(out, value_at, mode.value)
}

// The buffer of a case, ciphered.
fn cipher(buf: &mut [u8], line: &[u8])
    requires { Accepted line.now × (length buf.old ≡ length (last_part line.now) / 2) }
    ensures { buf.new ≡ ciphered_case (case_of line.now) }
{
    let algorithm = value(line, 0);
    let start = value(line, 3) as usize;
    let bits = value(line, 4) as usize;
    let skip = value(line, 5) as usize;
    let ck = key_of(line);
    let iv = iv_of(line);
    read_bytes(after_spaces(line, 6), buf);
    let run = Run {
        start,
        n: bits,
        skip,
    };
    ciphering::xor::cipher_from(buf, run, algorithm, ck, iv);
}

// The ciphered buffer and LF, by way of a lent buffer of its size.
fn put_ciphered(out: &mut [u8], at: usize, buf: &mut [u8], line: &[u8]) -> usize
    requires { Accepted line.now × (length buf.old ≡ length (last_part line.now) / 2) × Room out.old at (buffer_text (case_of line.now)) }
    ensures { Put out.old at (buffer_text (case_of line.now)) out.new result }
{
    cipher(buf, line);
    let end = put_hex(out, at, &buf[..]);
    put_bytes(out, end, b"\n")
}

// As many bytes as the longest buffer has.
fn longest() -> [u8; span::LONGEST_BUFFER]
    ensures { length result ≡ longest_buffer }
{
    [0; span::LONGEST_BUFFER]
}

// The ciphered buffer and LF.
fn put_buffer(out: &mut [u8], at: usize, line: &[u8]) -> usize
    requires { Accepted line.now × Room out.old at (buffer_text (case_of line.now)) }
    ensures { Put out.old at (buffer_text (case_of line.now)) out.new result }
{
    let mut work = longest();
    let n = buffer_size(line);
    put_ciphered(out, at, &mut work[..n], line)
}

// The answer to a case that is not refused.
pub fn put_accepted(out: &mut [u8], line: &[u8]) -> usize
    requires { Accepted line.now × (answer_room ≤ length out.old) }
    ensures { Put out.old 0 (accepted_text (case_of line.now)) out.new result }
{
    let at = put_mode(out, 0, value(line, 0), key_of(line), iv_of(line));
    put_buffer(out, at, line)
}
