// A whole PDU in one call: its plan, judged before a bit changes, and the slot whose key it needs.
#![tactic(auto)]

ghost use Rattle.std.specs.Prelude.{◌≡◌, length, not};
ghost use Rattle.refusals.specs.Refused.{number_of};
ghost use Rattle.slots.specs.Slots.{keyless};
ghost use Rattle.slot_calls.specs.Seen.{key_slot};
ghost use Rattle.plan.specs.Plan.{plan_as};
ghost use Rattle.whole.specs.Whole.{flag_of, room_refusal, open_refusal_of, whole_plan, has_no_piece, judged_plan};

use fields::Fields;
use plan::{Pieces, Plan};
use refusals::Refusal;
use traffic::{bit_at, use_refusal};

// Kind 2, whose PDUs have a fragmentation flag. It stays a number, as `flag_of` of specs/ has it and C gives it.
const SYNC_ON_SCH_H: u64 = 2;

// What a plan is made of, but for the flag: that stands in the PDU. Length, address and sdu are bits.
#[derive(Clone, Copy, Debug, PartialEq, Eq)]
pub struct Pdu {
    pub kind: u64,
    pub state: u64,
    pub length: usize,
    pub address: usize,
    pub sdu: usize,
}

// The fragmentation flag of a PDU: its bit 12, counted from 1, if it is of kind 2 and has one.
#[tactic(auto, unfolding(crate::specs::Whole::flag_of))]
fn flag_of(pdu: Pdu, buf: &[u8]) -> u64
    ensures { result ≡ flag_of pdu buf.now }
{
    if pdu.kind == SYNC_ON_SCH_H && pdu.length >= 12 {
        bit_at(buf, 11) as u64
    } else {
        0
    }
}

fn plan_of(pdu: Pdu, buf: &[u8]) -> Result<Pieces, Refusal>
    ensures { plan_as result ≡ whole_plan buf.now pdu }
{
    let flag = flag_of(pdu, buf);
    plan::plan_pdu(pdu.kind, pdu.state, flag, pdu.length, pdu.address, pdu.sdu)
}

// Refusals 5, 6.
#[tactic(auto, unfolding(crate::specs::Whole::room_refusal))]
fn room_refusal(size: usize, length: usize) -> Result<(), Refusal>
    ensures { number_of result ≡ room_refusal size length }
{
    Refusal::BufferLarge.when(span::LONGEST_BUFFER < size)?;
    Refusal::SpanOutside.when(8 * size < length)
}

// Refusals 16, 10, 7, 8, 12, 21, 3, 13, 5, 6, in this order.
#[tactic(auto, using(refusals::proofs::Judged::judged_steps), unfolding(crate::specs::Whole::open_refusal_of))]
fn open_refusal(
    bad: bool,
    f: Fields,
    direction: u64,
    number: u64,
    iv: &[u8],
    size: usize,
    length: usize,
) -> Result<(), Refusal>
    ensures { number_of result ≡ open_refusal_of bad (keyless f) direction number iv.now size length }
{
    use_refusal(bad, f, direction, number, iv)?;
    room_refusal(size, length)
}

// The plan of a call, by what its slot shows: no key is read to judge a call. Refusals 16, 10, 7, 8, 12, 21, 3, 13, 5, 6, 18, 19, in this order.
#[tactic(auto, using(refusals::proofs::Judged::judged_steps), unfolding(crate::specs::Whole::judged_plan))]
pub fn judged_plan(
    bad: bool,
    f: Fields,
    direction: u64,
    number: u64,
    iv: &[u8],
    buf: &[u8],
    pdu: Pdu,
) -> Result<Pieces, Refusal>
    ensures { plan_as result ≡ judged_plan bad (keyless f) direction number iv.now buf.now pdu }
{
    open_refusal(bad, f, direction, number, iv, buf.len(), pdu.length)?;
    plan_of(pdu, buf)
}

pub fn has_no_piece(p: Plan) -> bool
    ensures { result ≡ has_no_piece p }
{
    let first = p.first;
    let second = p.second;
    first.length == 0 && second.length == 0
}

// Whose key a call with this plan reads: the slot's of its number, and no slot's where there is no piece.
pub fn key_slot(p: Plan, number: u64) -> u64
    ensures { result ≡ key_slot (not (has_no_piece p)) number }
{
    if has_no_piece(p) {
        slot_calls::NO_SLOT
    } else {
        number
    }
}
