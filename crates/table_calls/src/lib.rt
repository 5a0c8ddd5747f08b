// Load, move, clear and read on a table by value (document 01, "Slots and rights").
#![tactic(auto)]

ghost use Rattle.std.specs.Prelude.{◌≡◌};
ghost use Rattle.slot_calls.specs.Answers.{changed_of, shown_as_found};
ghost use Rattle.slot_calls.specs.Calls.{loaded, moved, cleared, shown};
ghost use Rattle.slot_calls.specs.Seen.{slot_as};

use fields::{Asked, Fields};
use refusals::Refusal;
use slot_calls::{Found, move_refusal};
use slot_puts::{clear_of, load_of, read_of};
use slots::Slot;

// The slot of a number; an empty one for a number that is none.
pub fn slot_or_empty(table: [Slot; 32], number: u64) -> Slot
    ensures { result ≡ slot_as table number }
{
    if !fields::is_slot_number(number) {
        return slots::empty_slot();
    }
    slots::slot_at(table, number)
}

// What it shows.
fn fields_or_none(table: [Slot; 32], number: u64) -> Fields
    ensures { result ≡ (slot_as table number).fields }
{
    slot_or_empty(table, number).fields
}

// Fills an empty slot.
pub fn load(
    table: [Slot; 32],
    number: u64,
    asked: Asked,
    key: [u8; 24],
) -> Result<[Slot; 32], Refusal>
    ensures { changed_of table result ≡ loaded table number asked key }
{
    let bad = slots::table_is_bad(table);
    let slot = load_of(bad, fields_or_none(table, number), number, asked, key)?;
    Ok(slots::with_slot(table, number, slot))
}

// Carries a filled slot to an empty one, with a use that lies within the present one.
pub fn move_slot(table: [Slot; 32], from: u64, to: u64, asked: u64) -> Result<[Slot; 32], Refusal>
    ensures { changed_of table result ≡ moved table from to asked }
{
    let judged = move_refusal(
        slots::table_is_bad(table),
        fields_or_none(table, from),
        fields_or_none(table, to),
        from,
        to,
        asked,
    );
    let slot = slot_puts::carried(judged, slot_or_empty(table, from), asked)?;
    let carried = slots::with_slot(table, to, slot);
    Ok(slots::with_slot(carried, from, slots::empty_slot()))
}

// Empties a filled slot.
pub fn clear(table: [Slot; 32], number: u64) -> Result<[Slot; 32], Refusal>
    ensures { changed_of table result ≡ cleared table number }
{
    let bad = slots::table_is_bad(table);
    let slot = clear_of(bad, fields_or_none(table, number), number)?;
    Ok(slots::with_slot(table, number, slot))
}

// A filled slot's number and fields, without the key.
pub fn read(table: [Slot; 32], number: u64) -> Result<Found, Refusal>
    ensures { shown_as_found result ≡ shown table number }
{
    let bad = slots::table_is_bad(table);
    read_of(bad, fields_or_none(table, number), number)
}
