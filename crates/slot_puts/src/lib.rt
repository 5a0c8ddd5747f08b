// What load, move, clear and read make of a slot (document 01, "Slots and rights").
#![tactic(auto)]

ghost use Rattle.std.specs.Prelude.{◌≡◌, true};
ghost use Rattle.refusals.specs.Numbers.{done};
ghost use Rattle.refusals.specs.Refused.{number_of};
ghost use Rattle.slots.specs.Slots.{keyless};
ghost use Rattle.rights.specs.Rights.{stays_within};
ghost use Rattle.slot_calls.specs.Answers.{put_of, shown_as_found};
ghost use Rattle.slot_calls.specs.Calls.{moved_slot, shown_of};
ghost use Rattle.slot_calls.specs.Seen.{load_put, move_put, emptied_by, clear_put};

use fields::{Asked, Fields};
use refusals::Refusal;
use slot_calls::{Found, Put, clear_refusal, load_refusal};
use slots::Slot;

// The slot as a move leaves it in its new place.
fn moved_slot(slot: Slot, asked: u64) -> Slot
    requires { stays_within slot.fields.usage asked ≡ true }
    ensures { result ≡ moved_slot slot asked }
{
    let mut moved = slot;
    moved.fields.usage = rights::moved_use(slot.fields.usage, asked) as u8;
    moved
}

// The calls on one slot, by whether its table is bad and by what the slot shows: what it becomes.

pub fn load_of(
    bad: bool,
    f: Fields,
    number: u64,
    asked: Asked,
    key: [u8; 24],
) -> Result<Slot, Refusal>
    ensures { put_of result ≡ load_put bad (keyless f) number asked key }
{
    load_refusal(bad, f, number, asked)?;
    Ok(Slot {
        fields: fields::stored(asked),
        key,
    })
}

// What the target becomes of a move with this refusal; the source becomes an empty slot. The slot is looked at where it is carried.
pub fn move_of(refusal: u8, slot: Slot, asked: u64) -> Put
    requires { refusal ≡ done → stays_within slot.fields.usage asked ≡ true }
    ensures { result ≡ move_put refusal slot asked }
{
    if refusal != refusals::DONE {
        return Put {
            refusal,
            slot: slots::empty_slot(),
        };
    }
    Put {
        refusal,
        slot: moved_slot(slot, asked),
    }
}

// The same of a move so judged, with its refusal as it is.
pub fn carried(judged: Result<(), Refusal>, slot: Slot, asked: u64) -> Result<Slot, Refusal>
    requires { number_of judged ≡ done → stays_within slot.fields.usage asked ≡ true }
    ensures { put_of result ≡ move_put (number_of judged) slot asked }
{
    judged?;
    Ok(moved_slot(slot, asked))
}

// The same answer, for a slot that is emptied.
pub fn emptied(put: Result<Slot, Refusal>) -> Result<Slot, Refusal>
    ensures { put_of result ≡ emptied_by (put_of put) }
{
    put?;
    Ok(slots::empty_slot())
}

pub fn clear_of(bad: bool, f: Fields, number: u64) -> Result<Slot, Refusal>
    ensures { put_of result ≡ clear_put bad (keyless f) number }
{
    clear_refusal(bad, f, number)?;
    Ok(slots::empty_slot())
}

pub fn read_of(bad: bool, f: Fields, number: u64) -> Result<Found, Refusal>
    ensures { shown_as_found result ≡ shown_of bad (keyless f) number }
{
    clear_refusal(bad, f, number)?;
    Ok(Found { number, fields: f })
}
