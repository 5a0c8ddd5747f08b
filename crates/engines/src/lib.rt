// The quick engine's answer to the call that the plain engine answers. proofs/Equal.antt says that the two are the same.
#![tactic(auto)]

ghost use Rattle.std.specs.Prelude.{◌≡◌};
ghost use Rattle.plain.specs.Given.{given_refusal, given_buffer, given_blocks};

use bench::write_keystream;
use ciphering::Report;
use ciphering::lent::bytes_of;
use plain::call::refusal_of;

// By the quick engine: the tables, the list of mixed bytes, the schedule of 32-bit words.
#[tactic(auto, using(bench::proofs::Passed::keyed_steps), unfolding(plain::specs::Given::given_buffer, plain::specs::Given::given_blocks))]
pub fn quick(algorithm: u64, key: &[u8], iv: &[u8], buf: &mut [u8], n: usize, skip: usize) -> Report
    ensures { (result.refusal ≡ given_refusal algorithm key.now iv.now buf.old n skip)
        × (buf.new ≡ given_buffer algorithm key.now iv.now buf.old n skip)
        × (result.blocks ≡ given_blocks algorithm key.now iv.now buf.old n skip) }
{
    match refusal_of(algorithm, key, iv, buf, n, skip) {
        Ok(()) => {
            let made = write_keystream(buf, n, skip, algorithm, bytes_of(key), bytes_of(iv));
            Report {
                refusal: refusals::DONE,
                blocks: made.blocks,
                schedules: made.schedules,
            }
        }
        Err(refusal) => Report {
            refusal: refusal.number(),
            blocks: 0,
            schedules: 0,
        },
    }
}
