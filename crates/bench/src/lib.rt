// The bench call: keystream into a buffer, with no slot.
#![tactic(auto)]

ghost use Rattle.std.specs.Prelude.{◌≡◌, ◌+◌, ◌*◌, ◌≤◌, length};
ghost use Rattle.refusals.specs.Refused.{number_of};
ghost use Rattle.span.specs.Span.{longest_buffer, longest_stream, written};
ghost use Rattle.block_counts.specs.Counts.{blocks_used};
ghost use Rattle.keystream.specs.Stream.{keystream};
ghost use Rattle.bench.specs.Bench.{keyed_refusal, bench_refusal, bench_blocks, bench_answer};
ghost use Rattle.ciphering.specs.Span.{ciphered_as, schedules_for};

use ciphering::Report;
use ciphering::lent::bytes_of;
use ciphering::span_refusals::span_refusal;
use ciphering::xor::cipher_from;
use keystream::{Run, Tally};
use refusals::Refusal;

// Whether keystream may be had under a key that comes with the call, by the bytes of key, initial value and buffer.
#[tactic(auto, unfolding(crate::specs::Bench::keyed_refusal))]
pub fn keyed_refusal(
    algorithm: u64,
    key: usize,
    iv: usize,
    size: usize,
    start: usize,
    n: usize,
    skip: usize,
) -> Result<(), Refusal>
    ensures { number_of result ≡ keyed_refusal algorithm key iv size start n skip }
{
    Refusal::AlgorithmUnknown.when(!fields::is_algorithm(algorithm))?;
    Refusal::BenchKeyNot24.when(key != 24)?;
    Refusal::IvNot10.when(iv != 10)?;
    span_refusal(size, start, n, skip)
}

fn bench_refusal(algorithm: u64, key: &[u8], iv: &[u8], buf: &[u8], n: usize) -> Result<(), Refusal>
    ensures { number_of result ≡ bench_refusal algorithm key.now iv.now buf.now n }
{
    keyed_refusal(algorithm, key.len(), iv.len(), buf.len(), 0, n, 0)
}

// Bits 0 to n - 1 of the buffer become the keystream's from bit `skip` on. They are cleared first, and xored then.
#[tactic(auto, using(crate::proofs::Cleared::cleared_steps))]
pub fn write_keystream(
    buf: &mut [u8],
    n: usize,
    skip: usize,
    algorithm: u64,
    ck: [u8; 24],
    iv: [u8; 10],
) -> Tally
    requires { (length buf.old ≤ longest_buffer) × (n ≤ 8 * length buf.old) × (skip + n ≤ longest_stream) }
    ensures { (buf.new ≡ written buf.old (keystream algorithm ck iv) 0 skip n)
        × (result.schedules ≡ 1)
        × (result.blocks ≡ blocks_used skip n) }
{
    span::clear_front(buf, n);
    cipher_from(buf, Run { start: 0, n, skip }, algorithm, ck, iv)
}

// Writes keystream bits 0 to n - 1 from bit 0 of the buffer on, keeps its later bits, and reports how many blocks were made.
#[tactic(auto, using(crate::proofs::Passed::keyed_steps), unfolding(crate::specs::Bench::benched, crate::specs::Bench::bench_blocks))]
pub fn bench(algorithm: u64, key: &[u8], iv: &[u8], buf: &mut [u8], n: usize) -> Report
    ensures { (ciphered_as result.refusal buf.new result.blocks
        ≡ bench_answer algorithm key.now iv.now buf.old n)
        × (result.schedules ≡ schedules_for (bench_blocks algorithm key.now iv.now buf.old n)) }
{
    match bench_refusal(algorithm, key, iv, buf, n) {
        Ok(()) => {
            let made = write_keystream(buf, n, 0, algorithm, bytes_of(key), bytes_of(iv));
            Report {
                refusal: refusals::DONE,
                blocks: made.blocks,
                schedules: made.schedules,
            }
        }
        Err(refusal) => Report {
            refusal: refusal.number(),
            blocks: 0,
            schedules: 0,
        },
    }
}
