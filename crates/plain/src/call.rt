// The call: keystream into a buffer, from a bit of it on.
ghost use Rattle.std.specs.Prelude.{◌≡◌, ◌+◌, ◌-◌, ◌*◌, ◌<◌, ◌≤◌, min, length};
ghost use Rattle.refusals.specs.Refused.{number_of};
ghost use Rattle.span.specs.Span.{xored, written, stream_bit};
ghost use Rattle.block_counts.specs.Counts.{blocks_used};
ghost use Rattle.tea.specs.Keystream.{block_of};
ghost use Rattle.plain.specs.Given.{given_refusal, given_buffer, given_blocks, count_of};

use ciphering::lent::bytes_of;
use plain_blocks::blocks::block;
use plain_blocks::mode::mode_of_lent;
use refusals::Refusal;
use tea::mode::Mode;

// Whether keystream may be had from bit `skip` on: the bench call's tests, with the skip.
pub fn refusal_of(
    algorithm: u64,
    key: &[u8],
    iv: &[u8],
    buf: &[u8],
    n: usize,
    skip: usize,
) -> Result<(), Refusal>
    ensures { number_of result ≡ given_refusal algorithm key.now iv.now buf.now n skip }
{
    bench::keyed_refusal(algorithm, key.len(), iv.len(), buf.len(), 0, n, skip)
}

// Clauses 5.4, 6.4, 7.4: KSS[256 r + 8 s + t] is bit t of byte s of block r. Bit i of the buffer becomes itself xor KSS[skip + i], for i below n. Answers
// with the blocks that were made: each that holds one of the bits is made once.
fn xor_blocks(buf: &mut [u8], n: usize, skip: usize, mode: Mode) -> usize
    requires { (length buf.old ≤ 8192) × (n ≤ 8 * length buf.old) × (skip + n ≤ 8288) × (0 < n) }
    ensures { (buf.new ≡ xored buf.old (stream_bit (block_of mode)) 0 skip n) × (result ≡ blocks_used skip n) }
{
    let end = skip + n;
    let first = skip / 256;
    let after = end.div_ceil(256);
    for r in first..after {
        let from = skip.max(256 * r);
        let to = end.min(256 * r + 256);
        span::xor_block(buf, block(mode, r), from - skip, from % 256, to - from);
    }
    after - first
}

// The bits are cleared first, and xored then: they become the keystream's.
#[tactic(auto, using(bench::proofs::Cleared::cleared_steps))]
fn write_blocks(buf: &mut [u8], n: usize, skip: usize, mode: Mode) -> usize
    requires { (length buf.old ≤ 8192) × (n ≤ 8 * length buf.old) × (skip + n ≤ 8288) × (0 < n) }
    ensures { (buf.new ≡ written buf.old (stream_bit (block_of mode)) 0 skip n) × (result ≡ blocks_used skip n) }
{
    span::clear_front(buf, n);
    xor_blocks(buf, n, skip, mode)
}

// Bit i of the buffer becomes keystream bit skip + i, for i below n; its later bits stay. Answers with the blocks that were made.
#[tactic(auto, using(bench::proofs::Passed::keyed_steps), unfolding(crate::specs::Given::given_buffer, crate::specs::Given::given_blocks))]
fn give(
    algorithm: u64,
    key: &[u8],
    iv: &[u8],
    buf: &mut [u8],
    n: usize,
    skip: usize,
) -> Result<usize, Refusal>
    ensures { (number_of result ≡ given_refusal algorithm key.now iv.now buf.old n skip)
        × (buf.new ≡ given_buffer algorithm key.now iv.now buf.old n skip)
        × (count_of result ≡ given_blocks algorithm key.now iv.now buf.old n skip) }
{
    refusal_of(algorithm, key, iv, buf, n, skip)?;
    let mode = mode_of_lent(algorithm, key, bytes_of(iv));
    Ok(write_blocks(buf, n, skip, mode))
}

// The same for C: 0 or the refusal's number, and the blocks, 0 where the call is refused.
#[unsafe(no_mangle)]
pub extern "C" fn card_plain(
    algorithm: u64,
    key: &[u8],
    iv: &[u8],
    buf: &mut [u8],
    n: usize,
    skip: usize,
    blocks: &mut usize,
) -> u8
    ensures { (result ≡ given_refusal algorithm key.now iv.now buf.old n skip)
        × (buf.new ≡ given_buffer algorithm key.now iv.now buf.old n skip)
        × (blocks.new ≡ given_blocks algorithm key.now iv.now buf.old n skip) }
{
    match give(algorithm, key, iv, buf, n, skip) {
        Ok(made) => {
            *blocks = made;
            0
        }
        Err(refusal) => {
            *blocks = 0;
            refusal.number()
        }
    }
}
