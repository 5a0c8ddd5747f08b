// What the program `vectors` prints: the answer to a case, which is a line of its input.
#![tactic(auto)]

mod answer;

ghost use Rattle.std.specs.Prelude.{◌≡◌, ◌≤◌, length};
ghost use Rattle.writing.specs.Text.{lf};
ghost use Rattle.writing.specs.Writing.{Put};
ghost use Rattle.lines.specs.Line.{piece_length};
ghost use Rattle.cases.specs.Answer.{case_text, answer_text, answer_room};

use answer::put_accepted;
use case_reader::{case_refusal, is_readable};
use lines::{index_of, piece_length};
use writing::{put_bytes, put_line};

// Every answer fits a buffer of this many bytes.
pub const ROOM: usize = 16532;

// How many bytes the first line of a text takes, with its LF. A last line may lack it.
pub fn line_length(s: &[u8]) -> usize
    ensures { result ≡ piece_length lf s.now }
{
    piece_length(s, b'\n')
}

// The answer to a line without its LF.
fn put_case(out: &mut [u8], line: &[u8]) -> usize
    requires { answer_room ≤ length out.old }
    ensures { (result ≤ answer_room) × Put out.old 0 (case_text line.now) out.new result }
{
    if !is_readable(line) {
        return put_bytes(out, 0, b"unreadable\n");
    }
    match case_refusal(line) {
        Ok(()) => put_accepted(out, line),
        Err(refusal) => put_line(out, 0, b"refused=", refusal.number() as u64),
    }
}

// The answer to the first line of a text, at the front of the buffer, and its length. The bytes after it stay.
pub fn put_answer(out: &mut [u8], s: &[u8]) -> usize
    requires { answer_room ≤ length out.old }
    ensures { (result ≤ answer_room) × Put out.old 0 (answer_text s.now) out.new result }
{
    let end = index_of(s, b'\n');
    if end == s.len() {
        return put_bytes(out, 0, b"unreadable\n");
    }
    put_case(out, &s[..end])
}
