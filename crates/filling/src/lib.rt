// Reads a whole input into a buffer, as far as it fits: what the programs do first.
#![tactic(auto)]

ghost use Rattle.std.specs.Prelude.{ℕ, ◌<◌, length, take, IfOk};
ghost use Rattle.std.specs.Io.{ReadsAtMost};
ghost use Rattle.std.specs.Io.KnownBytes.{Consumes, IsAtEnd};

use std::io;
use std::io::Read;

// Reads until the buffer is full or the input ends, and answers how many bytes it put at the front of the buffer. Where that is fewer than the
// buffer has, nothing is left to read.
pub fn read_full<R: Read>(reader: &mut R, buffer: &mut [u8]) -> io::Result<usize>
    ensures within { ReadsAtMost result buffer.new }
    ensures bytes { IfOk result (λ n. Consumes (R.remaining reader.old) (R.remaining reader.new) (take n buffer.new)) }
    ensures end { IfOk result (λ n. n < length buffer.new → IsAtEnd (R.remaining reader.new)) }
{
    // No `for`: how far a turn goes is what the read says.
    let mut done = 0;
    while done < buffer.len() {
        let n = reader.read(&mut buffer[done..])?;
        if n == 0 {
            break;
        }
        done += n;
    }
    Ok(done)
}

#[cfg(test)]
mod tests {
    use super::*;
    use std::test::Fail;

    // A chain is read in two pieces, so neither read fills the buffer.
    #[test]
    fn goes_on_after_a_short_read(rt: HostRuntime) -> Result<(), Fail> {
        let first: &[u8] = b"ab";
        let second: &[u8] = b"cde";
        let mut reader = first.chain(second);
        let mut buffer = [0u8; 4];
        assert_eq!(rt; read_full(&mut reader, &mut buffer)?, 4);
        assert_eq!(rt; buffer, *b"abcd");
        assert_eq!(rt; read_full(&mut reader, &mut buffer)?, 1);
        assert_eq!(rt; buffer, *b"ebcd");
        assert_eq!(rt; read_full(&mut reader, &mut buffer)?, 0);
        Ok(())
    }
}
