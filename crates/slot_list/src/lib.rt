// The calls' view of a lent list of slot records: the slots are tested where they lie, what a slot shows is read for itself, and only the slot that is
// asked for is copied with its key.
#![tactic(auto)]

ghost use Rattle.std.specs.Prelude.{◌≡◌, ◌<◌, length, IfSome, unwrap_or};
ghost use Rattle.refusals.specs.Refused.{number_of};
ghost use Rattle.slot_calls.specs.Answers.{put_of};
ghost use Rattle.slots.specs.Slots.{has_bad};
ghost use Rattle.slot_list.specs.List.{is_no_table, place_of, fields_in, slot_in, put_in};

use fields::Fields;
use refusals::Refusal;
use slot_calls::Put;
use slots::Slot;

// A key is read only where every field of its slot is zero: so no key of a filled slot is left behind by the test. Most slots are filled, or their
// algorithm is none: so that is asked first.
fn has_bad(t: &[Slot]) -> bool
    requires { length t.now ≡ 32 }
    ensures { result ≡ has_bad t.now }
{
    t.iter().any(|slot| !slots::are_filled(slot.fields) && !slots::is_empty(*slot))
}

// Whether the lent records are no table: there is another number of them than 32, or one is neither empty nor filled.
pub fn is_no_table(t: &[Slot]) -> bool
    ensures { result ≡ is_no_table t.now }
{
    t.len() != 32 || has_bad(t)
}

// Where the slot of a number stands among this many records.
fn place_of(count: usize, number: u64) -> Option<usize>
    ensures place { unwrap_or result count ≡ place_of count number }
    ensures within { IfSome result (λ i. i < count) }
{
    if count == 32 && fields::is_slot_number(number) {
        Some((number - 1) as usize)
    } else {
        None
    }
}

// The slot of a number, with its key; an empty one if there is none.
pub fn slot_in(t: &[Slot], number: u64) -> Slot
    ensures { result ≡ slot_in t.now number }
{
    match place_of(t.len(), number) {
        Some(i) => t[i],
        None => slots::empty_slot(),
    }
}

// What the slot of a number shows; nothing if there is none.
pub fn fields_in(t: &[Slot], number: u64) -> Fields
    ensures { result ≡ fields_in t.now number }
{
    match place_of(t.len(), number) {
        Some(i) => t[i].fields,
        None => slots::no_fields(),
    }
}

// The slot goes to its place, and the answer to the caller. A refusal changes nothing.
pub fn store(t: &mut [Slot], number: u64, put: Result<Slot, Refusal>) -> Result<(), Refusal>
    ensures answer { number_of result ≡ (put_of put).refusal }
    ensures after { t.new ≡ put_in t.old number (put_of put) }
{
    let slot = put?;
    if let Some(i) = place_of(t.len(), number) {
        t[i] = slot;
    }
    Ok(())
}

// The same by the number of the refusal, which may be none of ours.
pub fn put_slot(t: &mut [Slot], number: u64, put: Put) -> u8
    ensures { (result ≡ put.refusal) × (t.new ≡ put_in t.old number put) }
{
    if put.refusal != refusals::DONE {
        return put.refusal;
    }
    refusals::number_of(store(t, number, Ok(put.slot)))
}
