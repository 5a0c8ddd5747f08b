// The slot calls on a table that the caller lends: 32 slot records behind a pointer. Each is judged by what its slots show, and reads a key only where it is
// not refused and needs one: so a refused call has no key to leave behind.
ghost use Rattle.std.specs.Prelude.{◌≡◌};
ghost use Rattle.refusals.specs.Refused.{number_of};
ghost use Rattle.faces.specs.Faces.{asking, pdu_as, changed_as, shown_as};
ghost use Rattle.ciphering.specs.Span.{ciphered_as};
ghost use Rattle.card.specs.Table.{loaded_in, moved_in, cleared_in, shown_in, traffic_answer_in, whole_answer_in};

use faces::{load_from, pdu_from, plan_from, show_from, traffic_from};
use refusals::{Refusal, number_of};
use slot_calls::key_slot;
use slot_list::{fields_in, is_no_table, slot_in, store};
use slots::Slot;
use traffic::traffic_refusal;

// Fills an empty slot.
#[unsafe(no_mangle)]
pub extern "C" fn card_load(
    t: &mut [Slot],
    number: u64,
    version: u16,
    algorithm: u64,
    usage: u64,
    side: u64,
    place: u64,
    mcc: u64,
    mnc: u64,
    key: &[u8; 24],
) -> u8
    ensures { changed_as result t.new
        ≡ loaded_in t.old number (asking version algorithm usage side place mcc mnc) key.now }
{
    let put = load_from(
        is_no_table(t),
        fields_in(t, number),
        number,
        version,
        algorithm,
        usage,
        side,
        place,
        mcc,
        mnc,
        key,
    );
    number_of(store(t, number, put))
}

// Carries a slot where the move is not refused. The key is read where it is carried.
fn carry(t: &mut [Slot], from: u64, to: u64, asked: u64) -> Result<(), Refusal>
    ensures { changed_as (number_of result) t.new ≡ moved_in t.old from to asked }
{
    let judged = slot_calls::move_refusal(
        is_no_table(t),
        fields_in(t, from),
        fields_in(t, to),
        from,
        to,
        asked,
    );
    let slot = slot_in(t, key_slot(number_of(judged), from));
    let put = slot_puts::carried(judged, slot, asked);
    store(t, to, put)?;
    store(t, from, slot_puts::emptied(put))
}

// Carries a filled slot to an empty one, with a use that lies within the present one.
#[unsafe(no_mangle)]
pub extern "C" fn card_move(t: &mut [Slot], from: u64, to: u64, asked: u64) -> u8
    ensures { changed_as result t.new ≡ moved_in t.old from to asked }
{
    number_of(carry(t, from, to, asked))
}

// Empties a filled slot.
#[unsafe(no_mangle)]
pub extern "C" fn card_clear(t: &mut [Slot], number: u64) -> u8
    ensures { changed_as result t.new ≡ cleared_in t.old number }
{
    let put = slot_puts::clear_of(is_no_table(t), fields_in(t, number), number);
    number_of(store(t, number, put))
}

// Gives a filled slot's number and fields, without the key. A refusal gives 0 for each of them.
#[unsafe(no_mangle)]
pub extern "C" fn card_read<'a>(
    t: &[Slot],
    number: u64,
    found: &'a mut u64,
    version: &'a mut u16,
    algorithm: &'a mut u8,
    usage: &'a mut u8,
    side: &'a mut u8,
    place: &'a mut u8,
    mcc: &'a mut u16,
    mnc: &'a mut u16,
) -> u8
    ensures { shown_as result found.new version.new algorithm.new usage.new side.new place.new mcc.new mnc.new ≡ shown_in t.now number }
{
    show_from(
        is_no_table(t),
        fields_in(t, number),
        number,
        found,
        version,
        algorithm,
        usage,
        side,
        place,
        mcc,
        mnc,
    )
}

// Buffer bit start + i becomes itself xor keystream bit skip + i, for i below n; every other bit stays. Reports how many blocks were made.
#[unsafe(no_mangle)]
pub extern "C" fn card_traffic<'a>(
    t: &[Slot],
    direction: u64,
    number: u64,
    iv: &'a [u8],
    buf: &'a mut [u8],
    start: usize,
    n: usize,
    skip: usize,
    blocks: &'a mut usize,
) -> u8
    ensures { ciphered_as result buf.new blocks.new
        ≡ traffic_answer_in t.now direction number iv.now buf.old start n skip }
{
    let judged = traffic_refusal(
        is_no_table(t),
        fields_in(t, number),
        direction,
        number,
        iv,
        buf,
        start,
        n,
        skip,
    );
    let refusal = number_of(judged);
    let slot = slot_in(t, key_slot(refusal, number));
    traffic_from(refusal, slot, iv, buf, start, n, skip, blocks)
}

// A whole PDU, from bit 0 of the buffer on: every piece of its plan is ciphered, or no bit changes. Its flag is read from its bit 12, counted from 1.
// Reports how many blocks were made.
#[unsafe(no_mangle)]
pub extern "C" fn card_pdu<'a>(
    t: &[Slot],
    direction: u64,
    number: u64,
    iv: &'a [u8],
    buf: &'a mut [u8],
    kind: u64,
    state: u64,
    length: usize,
    address: usize,
    sdu: usize,
    blocks: &'a mut usize,
) -> u8
    ensures { ciphered_as result buf.new blocks.new
        ≡ whole_answer_in t.now direction number iv.now buf.old (pdu_as kind state length address sdu) }
{
    let p = plan_from(
        is_no_table(t),
        fields_in(t, number),
        direction,
        number,
        iv,
        buf,
        kind,
        state,
        length,
        address,
        sdu,
    );
    let slot = slot_in(t, whole::key_slot(p, number));
    pdu_from(p, slot, iv, buf, blocks)
}
