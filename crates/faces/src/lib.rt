// What C gives and gets one by one, beside the values that the calls work on.
#![tactic(auto)]

ghost use Rattle.std.specs.Prelude.{◌≡◌};
ghost use Rattle.slots.specs.Slots.{keyless};
ghost use Rattle.slot_calls.specs.Answers.{put_of};
ghost use Rattle.slot_calls.specs.Calls.{shown_of};
ghost use Rattle.slot_calls.specs.Seen.{load_put};
ghost use Rattle.ciphering.specs.Span.{ciphered_as};
ghost use Rattle.traffic.specs.Traffic.{TrafficMay, traffic_after};
ghost use Rattle.whole.specs.Whole.{judged_plan, WholeMay, whole_after};
ghost use Rattle.faces.specs.Faces.{asking, pdu_as, shown_as, shown_numbers, piece_numbers};

use ciphering::Report;
use fields::{Asked, Fields};
use plan::Plan;
use refusals::Refusal;
use slot_calls::Found;
use slots::Slot;
use traffic_work::traffic_of;
use whole::{Pdu, judged_plan};
use whole_work::whole_of;

// What a refused read shows.
const NOTHING: Found = Found {
    number: 0,
    fields: Fields {
        version: 0,
        algorithm: 0,
        usage: 0,
        side: 0,
        place: 0,
        mcc: 0,
        mnc: 0,
    },
};

// The fields that a caller gives one by one.
pub fn asked_for(
    version: u16,
    algorithm: u64,
    usage: u64,
    side: u64,
    place: u64,
    mcc: u64,
    mnc: u64,
) -> Asked
    ensures { result ≡ asking version algorithm usage side place mcc mnc }
{
    Asked {
        version,
        algorithm,
        usage,
        side,
        place,
        mcc,
        mnc,
    }
}

// A record's number and fields, as its reader gets them.
pub fn shown_numbers(number: u64, f: Fields) -> [u64; 8]
    ensures { result ≡ shown_numbers number f }
{
    [
        number,
        f.version as u64,
        f.algorithm as u64,
        f.usage as u64,
        f.side as u64,
        f.place as u64,
        f.mcc as u64,
        f.mnc as u64,
    ]
}

// A plan's pieces, as its caller gets them.
pub fn piece_numbers(p: Plan) -> [usize; 6]
    ensures { result ≡ piece_numbers p }
{
    let a = p.first;
    let b = p.second;
    [a.start, a.length, a.skip, b.start, b.length, b.skip]
}

// What a call on a buffer reports, as its caller gets it.
pub fn report(made: Report, blocks: &mut usize) -> u8
    ensures { (result ≡ made.refusal) × (blocks.new ≡ made.blocks) }
{
    *blocks = made.blocks;
    made.refusal
}

// The calls on one slot, judged and done.

pub fn load_from(
    bad: bool,
    f: Fields,
    number: u64,
    version: u16,
    algorithm: u64,
    usage: u64,
    side: u64,
    place: u64,
    mcc: u64,
    mnc: u64,
    key: &[u8; 24],
) -> Result<Slot, Refusal>
    ensures { put_of result ≡ load_put bad (keyless f) number (asking version algorithm usage side place mcc mnc) key.now }
{
    let asked = asked_for(version, algorithm, usage, side, place, mcc, mnc);
    slot_puts::load_of(bad, f, number, asked, *key)
}

pub fn show_from<'a>(
    bad: bool,
    f: Fields,
    number: u64,
    found: &'a mut u64,
    version: &'a mut u16,
    algorithm: &'a mut u8,
    usage: &'a mut u8,
    side: &'a mut u8,
    place: &'a mut u8,
    mcc: &'a mut u16,
    mnc: &'a mut u16,
) -> u8
    ensures { shown_as result found.new version.new algorithm.new usage.new side.new place.new mcc.new mnc.new ≡ shown_of bad (keyless f) number }
{
    let (answer, shown) = match slot_puts::read_of(bad, f, number) {
        Ok(shown) => (0, shown),
        Err(refusal) => (refusal.number(), NOTHING),
    };
    let f = shown.fields;
    *found = shown.number;
    *version = f.version;
    *algorithm = f.algorithm;
    *usage = f.usage;
    *side = f.side;
    *place = f.place;
    *mcc = f.mcc;
    *mnc = f.mnc;
    answer
}

pub fn traffic_from<'a>(
    refusal: u8,
    slot: Slot,
    iv: &'a [u8],
    buf: &'a mut [u8],
    start: usize,
    n: usize,
    skip: usize,
    blocks: &'a mut usize,
) -> u8
    requires { TrafficMay refusal iv.now buf.old start n skip }
    ensures { ciphered_as result buf.new blocks.new
        ≡ traffic_after refusal slot iv.now buf.old start n skip }
{
    report(traffic_of(refusal, slot, iv, buf, start, n, skip), blocks)
}

pub fn plan_from(
    bad: bool,
    f: Fields,
    direction: u64,
    number: u64,
    iv: &[u8],
    buf: &[u8],
    kind: u64,
    state: u64,
    length: usize,
    address: usize,
    sdu: usize,
) -> Plan
    ensures { result ≡ judged_plan bad (keyless f) direction number iv.now buf.now (pdu_as kind state length address sdu) }
{
    let pdu = Pdu {
        kind,
        state,
        length,
        address,
        sdu,
    };
    Plan::from(judged_plan(bad, f, direction, number, iv, buf, pdu))
}

pub fn pdu_from<'a>(
    p: Plan,
    slot: Slot,
    iv: &'a [u8],
    buf: &'a mut [u8],
    blocks: &'a mut usize,
) -> u8
    requires { WholeMay p iv.now buf.old }
    ensures { ciphered_as result buf.new blocks.new ≡ whole_after p slot iv.now buf.old }
{
    report(whole_of(p, slot, iv, buf), blocks)
}
