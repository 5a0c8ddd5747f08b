// The table of thirty-two key slots, by value: load, move, clear and read, and what a use allows.
#![tactic(auto)]

ghost use Rattle.std.specs.Prelude.{◌≡◌, true, ◌-◌, ◌<◌};
ghost use Rattle.fields.specs.Fields.{is_slot_number};
ghost use Rattle.slots.specs.Slots.{no_fields, is_no_fields, all_zero, is_empty, is_filled, is_bad, has_bad, empty, keyless, empty_table, slot_at, with_slot};

use fields::{Asked, Fields};

// What may be shown, and what may not.
#[repr(C)]
#[derive(Clone, Copy)]
pub struct Slot {
    pub fields: Fields,
    pub key: [u8; 24],
}

// No `Default`: what an empty slot shows is a rule, and `no_fields` of specs/ names it.
pub fn no_fields() -> Fields
    ensures { result ≡ no_fields }
{
    Fields {
        version: 0,
        algorithm: 0,
        usage: 0,
        side: 0,
        place: 0,
        mcc: 0,
        mnc: 0,
    }
}

pub fn empty_slot() -> Slot
    ensures { result ≡ empty }
{
    Slot {
        fields: no_fields(),
        key: [0u8; 24],
    }
}

pub fn empty_table() -> [Slot; 32]
    ensures { result ≡ empty_table }
{
    let slot = empty_slot();
    [slot; 32]
}

pub fn is_no_fields(f: Fields) -> bool
    ensures { result ≡ is_no_fields f }
{
    f == no_fields()
}

// No branch on a byte: quick, and the same work for every key.
fn all_zero(key: [u8; 24]) -> bool
    ensures { result ≡ all_zero key }
{
    let mut joined = 0;
    for b in key {
        joined |= b;
    }
    joined == 0
}

// The key is looked at only where every field is zero.
#[tactic(auto, unfolding(crate::specs::Slots::is_empty))]
pub fn is_empty(slot: Slot) -> bool
    ensures { result ≡ is_empty slot }
{
    is_no_fields(slot.fields) && all_zero(slot.key)
}

#[tactic(auto, unfolding(crate::specs::Slots::is_filled))]
pub fn are_filled(f: Fields) -> bool
    ensures { result ≡ is_filled (keyless f) }
{
    fields::are_in_range(Asked::from(f))
}

#[tactic(auto, unfolding(crate::specs::Slots::is_filled))]
pub fn is_filled(slot: Slot) -> bool
    ensures { result ≡ is_filled slot }
{
    are_filled(slot.fields)
}

#[tactic(auto, unfolding(crate::specs::Slots::is_bad))]
pub fn is_bad(slot: Slot) -> bool
    ensures { result ≡ is_bad slot }
{
    !is_filled(slot) && !is_empty(slot)
}

pub fn table_is_bad(table: [Slot; 32]) -> bool
    ensures { result ≡ has_bad table }
{
    table.iter().any(|slot| is_bad(*slot))
}

fn index_of(number: u64) -> usize
    requires { is_slot_number number ≡ true }
    ensures place { result ≡ number - 1 }
    ensures within { result < 32 }
{
    (number - 1) as usize
}

pub fn slot_at(table: [Slot; 32], number: u64) -> Slot
    requires { is_slot_number number ≡ true }
    ensures { result ≡ slot_at table number }
{
    table[index_of(number)]
}

pub fn with_slot(table: [Slot; 32], number: u64, slot: Slot) -> [Slot; 32]
    requires { is_slot_number number ≡ true }
    ensures { result ≡ with_slot table number slot }
{
    let mut t = table;
    t[index_of(number)] = slot;
    t
}
