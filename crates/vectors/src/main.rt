// Answers cases: reads up to 262,144 bytes from standard input, a case a line, and writes a line for each to standard output.
#![tactic(auto)]

ghost use Rattle.std.specs.Prelude.{◌≤◌, length};
ghost use Rattle.cases.specs.Answer.{answer_room};

use std::io;
use std::io::Write;

// One answer after the other, each by way of the lent buffer.
fn answer_all<W: Write>(writer: &mut W, input: &[u8], out: &mut [u8]) -> io::Result<()>
    requires { answer_room ≤ length out.old }
{
    // No `for`: how far a turn goes is what the line takes, by the contract of `line_length`.
    let mut rest = input;
    while !rest.is_empty() {
        let size = cases::line_length(rest);
        let length = cases::put_answer(out, &rest[..size]);
        writer.write_all(&out[..length])?;
        rest = &rest[size..];
    }
    Ok(())
}

fn main(rt: HostRuntime) -> io::Result<()> {
    let mut input = [0u8; 262144];
    let n = filling::read_full(&mut rt.stdin(), &mut input)?;
    let mut out = [0u8; cases::ROOM];
    answer_all(&mut rt.stdout(), &input[..n], &mut out)
}
