// Refusals 5, 4 and 6.
ghost use Rattle.std.specs.Prelude.{◌≡◌, ◌+◌, ltb};
ghost use Rattle.refusals.specs.Refused.{number_of};
ghost use Rattle.ciphering.specs.Span.{span_refusal};

use refusals::Refusal;

// Is a + b above the limit? The sum is not made: it may be too large for a machine number.
fn sum_above(limit: usize, a: usize, b: usize) -> bool
    ensures { result ≡ ltb limit (a + b) }
{
    limit < a || limit - a < b
}

#[tactic(auto, unfolding(crate::specs::Span::span_refusal))]
pub fn span_refusal(size: usize, start: usize, n: usize, skip: usize) -> Result<(), Refusal>
    ensures { number_of result ≡ span_refusal size start n skip }
{
    Refusal::BufferLarge.when(span::LONGEST_BUFFER < size)?;
    Refusal::LengthBad.when(n == 0 || sum_above(span::LONGEST_STREAM, skip, n))?;
    Refusal::SpanOutside.when(sum_above(8 * size, start, n))
}
