// Load, move, clear and read: their refusals, in order (document 01, "Slots and rights").
#![tactic(auto)]

ghost use Rattle.std.specs.Prelude.{◌≡◌, eqb, not, ◌||◌};
ghost use Rattle.refusals.specs.Numbers.{done};
ghost use Rattle.refusals.specs.Refused.{number_of};
ghost use Rattle.fields.specs.Fields.{is_slot_number};
ghost use Rattle.slots.specs.Slots.{keyless};
ghost use Rattle.slot_calls.specs.Calls.{load_refusal_of, move_refusal_of, slot_refusal_of, clear_refusal_of};
ghost use Rattle.slot_calls.specs.Seen.{key_slot};

use fields::{Asked, Fields};
use refusals::Refusal;
use slots::Slot;

// The number of no slot. It is a number and no `None`, as `key_slot` of specs/ has it.
pub const NO_SLOT: u64 = 0;

// What a read finds.
#[derive(Clone, Copy, Debug, PartialEq, Eq)]
pub struct Found {
    pub number: u64,
    pub fields: Fields,
}

// The answer to a call that changes one slot: where it is not refused, the slot becomes this one.
#[derive(Clone, Copy)]
pub struct Put {
    pub refusal: u8,
    pub slot: Slot,
}

// Each call is judged by whether its table is bad and by the fields of its slots. No key is looked at: in a table without a bad slot,
// a slot that shows nothing is empty.

// Refusals 16, 7, 1, 21, 10, 11, 20, 9, in this order.
#[tactic(auto, unfolding(crate::specs::Calls::load_refusal_of))]
pub fn load_refusal(bad: bool, f: Fields, number: u64, asked: Asked) -> Result<(), Refusal>
    ensures { number_of result ≡ load_refusal_of bad (keyless f) number asked }
{
    Refusal::TableBad.when(bad)?;
    Refusal::SlotNumberBad.when(!fields::is_slot_number(number))?;
    Refusal::AlgorithmUnknown.when(!fields::is_algorithm(asked.algorithm))?;
    Refusal::AlgorithmOutOfService.when(fields::is_out_of_service(asked.algorithm))?;
    fields::rights_refusal(asked)?;
    Refusal::TargetFilled.when(slots::are_filled(f))
}

// Whether either number is no slot's.
fn either_is_none(from: u64, to: u64) -> bool
    ensures { result ≡ not (is_slot_number from) || not (is_slot_number to) }
{
    !fields::is_slot_number(from) || !fields::is_slot_number(to)
}

// Refusals 16, 7 for either number, 8, 9, 10, 14, in this order.
#[tactic(auto, using(crate::proofs::Judged::judging), unfolding(crate::specs::Calls::move_refusal_of))]
pub fn move_refusal(
    bad: bool,
    f: Fields,
    target: Fields,
    from: u64,
    to: u64,
    asked: u64,
) -> Result<(), Refusal>
    ensures { number_of result ≡ move_refusal_of bad (keyless f) (keyless target) from to asked }
{
    Refusal::TableBad.when(bad)?;
    Refusal::SlotNumberBad.when(either_is_none(from, to))?;
    Refusal::SlotEmpty.when(slots::is_no_fields(f))?;
    Refusal::TargetFilled.when(slots::are_filled(target))?;
    Refusal::CodeUnknown.when(!rights::is_asked_use(asked))?;
    Refusal::UseNotWithin.when(!rights::may_move(f.usage, asked))
}

// Refusals 7, 8, in this order.
#[tactic(auto, using(crate::proofs::Judged::judging), unfolding(crate::specs::Calls::slot_refusal_of))]
pub fn slot_refusal(f: Fields, number: u64) -> Result<(), Refusal>
    ensures { number_of result ≡ slot_refusal_of (keyless f) number }
{
    Refusal::SlotNumberBad.when(!fields::is_slot_number(number))?;
    Refusal::SlotEmpty.when(slots::is_no_fields(f))
}

// Refusals 16, 7, 8, in this order.
#[tactic(auto, unfolding(crate::specs::Calls::clear_refusal_of))]
pub fn clear_refusal(bad: bool, f: Fields, number: u64) -> Result<(), Refusal>
    ensures { number_of result ≡ clear_refusal_of bad (keyless f) number }
{
    Refusal::TableBad.when(bad)?;
    slot_refusal(f, number)
}

// Whose key a call with this refusal reads: the slot's of its number, and no slot's after a refusal.
pub fn key_slot(refusal: u8, number: u64) -> u64
    ensures { result ≡ key_slot (eqb refusal done) number }
{
    if refusal == refusals::DONE {
        number
    } else {
        NO_SLOT
    }
}
