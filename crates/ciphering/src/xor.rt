// The step that the calls on a buffer share.
ghost use Rattle.std.specs.Prelude.{◌≡◌, ◌≤◌, length};
ghost use Rattle.span.specs.Span.{longest_buffer};
ghost use Rattle.block_counts.specs.Counts.{blocks_used};
ghost use Rattle.keystream.specs.Stream.{keystream};
ghost use Rattle.keystream.specs.Work.{Fits, through_run};

use keystream::{Run, Tally};

// A run of bits: bit start + i of the buffer becomes itself xor keystream bit skip + i, for i below n; every other bit stays. The part of the buffer that
// starts at the first touched byte is lent on to be written. Answers with what was made.
pub fn cipher_from(buf: &mut [u8], run: Run, algorithm: u64, ck: [u8; 24], iv: [u8; 10]) -> Tally
    requires { (length buf.old ≤ longest_buffer) × Fits buf.old run }
    ensures { (buf.new ≡ through_run buf.old (keystream algorithm ck iv) run)
        × (result.schedules ≡ 1)
        × (result.blocks ≡ blocks_used run.skip run.n) }
{
    let first = run.start / 8;
    let off = run.start % 8;
    keystream::xor_keystream(&mut buf[first..], off, run.n, run.skip, algorithm, ck, iv)
}
