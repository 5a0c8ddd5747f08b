// The plain engine's call, which this library offers to C: that of the same name in `plain`, under the same contract.
#![tactic(auto)]

ghost use Rattle.std.specs.Prelude.{◌≡◌};
ghost use Rattle.plain.specs.Given.{given_refusal, given_buffer, given_blocks};

#[unsafe(no_mangle)]
pub extern "C" fn card_plain(
    algorithm: u64,
    key: &[u8],
    iv: &[u8],
    buf: &mut [u8],
    n: usize,
    skip: usize,
    blocks: &mut usize,
) -> u8
    ensures { (result ≡ given_refusal algorithm key.now iv.now buf.old n skip)
        × (buf.new ≡ given_buffer algorithm key.now iv.now buf.old n skip)
        × (blocks.new ≡ given_blocks algorithm key.now iv.now buf.old n skip) }
{
    plain::call::card_plain(algorithm, key, iv, buf, n, skip, blocks)
}
