// Traffic with a slot's key, on any run of bits of a lent buffer.
#![tactic(auto)]

ghost use Rattle.std.specs.Prelude.{◌≡◌};
ghost use Rattle.laws.specs.Bits.{bit_at};
ghost use Rattle.refusals.specs.Refused.{number_of};
ghost use Rattle.slots.specs.Slots.{keyless};
ghost use Rattle.traffic.specs.Traffic.{on_side, sends_out_of_service, use_refusal_of, traffic_refusal_of};

use ciphering::span_refusals::span_refusal;
use fields::Fields;
use refusals::Refusal;

// A direction stays a number, as `use_includes` takes it and the definitions have it: an enum would be turned back to it in each contract.
const SEND: u64 = 1;

// Bit i of lent bytes, and 0 past their end.
#[tactic(auto, using(crate::proofs::Past::past_steps), unfolding(laws::specs::Bits::bit_at, laws::specs::Bits::bit_of))]
pub fn bit_at(s: &[u8], i: usize) -> u8
    ensures { result ≡ bit_at s.now i }
{
    match s.get(i / 8) {
        Some(byte) => (byte >> (7 - i % 8)) % 2,
        None => 0,
    }
}

// The IV marks its direction by bit `place`.
fn on_side(direction: u64, f: Fields, iv: &[u8]) -> bool
    ensures { result ≡ on_side direction f iv.now }
{
    let is_side = bit_at(iv, f.place as usize) == f.side;
    if direction == SEND { is_side } else { !is_side }
}

// A send with an algorithm that is out of service. A receive with it is none.
fn sends_out_of_service(direction: u64, f: Fields) -> bool
    ensures { result ≡ sends_out_of_service direction f }
{
    direction == SEND && fields::is_out_of_service(f.algorithm as u64)
}

// Refusals 16, 10, 7, 8, 12, 21, 3, 13, in this order. What decides comes one by one here and above, as C gives it and the definitions take it.
#[tactic(auto, using(refusals::proofs::Judged::judged_steps), unfolding(crate::specs::Traffic::use_refusal_of))]
pub fn use_refusal(
    bad: bool,
    f: Fields,
    direction: u64,
    number: u64,
    iv: &[u8],
) -> Result<(), Refusal>
    ensures { number_of result ≡ use_refusal_of bad (keyless f) direction number iv.now }
{
    Refusal::TableBad.when(bad)?;
    Refusal::CodeUnknown.when(!rights::is_direction(direction))?;
    slot_calls::slot_refusal(f, number)?;
    Refusal::DirectionNotInUse.when(!rights::use_includes(f.usage, direction))?;
    Refusal::AlgorithmOutOfService.when(sends_out_of_service(direction, f))?;
    Refusal::IvNot10.when(iv.len() != 10)?;
    Refusal::IvSideWrong.when(!on_side(direction, f, iv))
}

// Refusals 16, 10, 7, 8, 12, 21, 3, 13, 5, 4, 6, in this order, by what the slot shows: no key is read to judge a call.
#[tactic(auto, using(refusals::proofs::Judged::judged_steps), unfolding(crate::specs::Traffic::traffic_refusal_of))]
pub fn traffic_refusal(
    bad: bool,
    f: Fields,
    direction: u64,
    number: u64,
    iv: &[u8],
    buf: &[u8],
    start: usize,
    n: usize,
    skip: usize,
) -> Result<(), Refusal>
    ensures { number_of result ≡ traffic_refusal_of bad (keyless f) direction number iv.now buf.now start n skip }
{
    use_refusal(bad, f, direction, number, iv)?;
    span_refusal(buf.len(), start, n, skip)
}
