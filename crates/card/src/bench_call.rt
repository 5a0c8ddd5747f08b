// The bench call, for C.
ghost use Rattle.std.specs.Prelude.{◌≡◌};
ghost use Rattle.bench.specs.Bench.{bench_answer};
ghost use Rattle.ciphering.specs.Span.{ciphered_as};

// Writes keystream bits 0 to n - 1 from bit 0 of the buffer on, keeps its later bits, and reports how many blocks were made.
#[unsafe(no_mangle)]
pub extern "C" fn card_bench(
    algorithm: u64,
    key: &[u8],
    iv: &[u8],
    buf: &mut [u8],
    n: usize,
    blocks: &mut usize,
) -> u8
    ensures { ciphered_as result buf.new blocks.new
        ≡ bench_answer algorithm key.now iv.now buf.old n }
{
    faces::report(bench::bench(algorithm, key, iv, buf, n), blocks)
}
