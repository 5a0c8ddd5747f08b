// The calls of the card, which this library offers to C: each is the call of the same name in `card`, under the same contract.
#![tactic(auto)]

ghost use Rattle.std.specs.Prelude.{◌≡◌};
ghost use Rattle.faces.specs.Faces.{
  asking,
  changed_as,
  pdu_as,
  planned_as,
  planned_out,
  read_as,
  read_out,
  shown_as,
  written_as,
  written_out,
};
ghost use Rattle.bench.specs.Bench.{bench_answer};
ghost use Rattle.card.specs.Table.{loaded_in, moved_in, cleared_in, shown_in, traffic_answer_in, whole_answer_in};
ghost use Rattle.ciphering.specs.Span.{ciphered_as};
ghost use Rattle.plan.specs.Plan.{plan_of};
ghost use Rattle.record_reader.specs.Record.{record_read};
ghost use Rattle.sheet.specs.Sheet.{listed_length, listed_buffer};

use slots::Slot;

#[unsafe(no_mangle)]
pub extern "C" fn card_load(
    t: &mut [Slot],
    number: u64,
    version: u16,
    algorithm: u64,
    usage: u64,
    side: u64,
    place: u64,
    mcc: u64,
    mnc: u64,
    key: &[u8; 24],
) -> u8
    ensures { changed_as result t.new
        ≡ loaded_in t.old number (asking version algorithm usage side place mcc mnc) key.now }
{
    card::table::card_load(
        t, number, version, algorithm, usage, side, place, mcc, mnc, key,
    )
}

#[unsafe(no_mangle)]
pub extern "C" fn card_move(t: &mut [Slot], from: u64, to: u64, asked: u64) -> u8
    ensures { changed_as result t.new ≡ moved_in t.old from to asked }
{
    card::table::card_move(t, from, to, asked)
}

#[unsafe(no_mangle)]
pub extern "C" fn card_clear(t: &mut [Slot], number: u64) -> u8
    ensures { changed_as result t.new ≡ cleared_in t.old number }
{
    card::table::card_clear(t, number)
}

#[unsafe(no_mangle)]
pub extern "C" fn card_read<'a>(
    t: &[Slot],
    number: u64,
    found: &'a mut u64,
    version: &'a mut u16,
    algorithm: &'a mut u8,
    usage: &'a mut u8,
    side: &'a mut u8,
    place: &'a mut u8,
    mcc: &'a mut u16,
    mnc: &'a mut u16,
) -> u8
    ensures { shown_as result found.new version.new algorithm.new usage.new side.new place.new mcc.new mnc.new ≡ shown_in t.now number }
{
    card::table::card_read(
        t, number, found, version, algorithm, usage, side, place, mcc, mnc,
    )
}

#[unsafe(no_mangle)]
pub extern "C" fn card_traffic<'a>(
    t: &[Slot],
    direction: u64,
    number: u64,
    iv: &'a [u8],
    buf: &'a mut [u8],
    start: usize,
    n: usize,
    skip: usize,
    blocks: &'a mut usize,
) -> u8
    ensures { ciphered_as result buf.new blocks.new
        ≡ traffic_answer_in t.now direction number iv.now buf.old start n skip }
{
    card::table::card_traffic(t, direction, number, iv, buf, start, n, skip, blocks)
}

#[unsafe(no_mangle)]
pub extern "C" fn card_pdu<'a>(
    t: &[Slot],
    direction: u64,
    number: u64,
    iv: &'a [u8],
    buf: &'a mut [u8],
    kind: u64,
    state: u64,
    length: usize,
    address: usize,
    sdu: usize,
    blocks: &'a mut usize,
) -> u8
    ensures { ciphered_as result buf.new blocks.new
        ≡ whole_answer_in t.now direction number iv.now buf.old (pdu_as kind state length address sdu) }
{
    card::table::card_pdu(
        t, direction, number, iv, buf, kind, state, length, address, sdu, blocks,
    )
}

#[unsafe(no_mangle)]
pub extern "C" fn card_bench(
    algorithm: u64,
    key: &[u8],
    iv: &[u8],
    buf: &mut [u8],
    n: usize,
    blocks: &mut usize,
) -> u8
    ensures { ciphered_as result buf.new blocks.new
        ≡ bench_answer algorithm key.now iv.now buf.old n }
{
    card::bench_call::card_bench(algorithm, key, iv, buf, n, blocks)
}

#[unsafe(no_mangle)]
pub extern "C" fn card_record_read(
    text: &[u8],
    shown: &mut [u64; 8],
    key: &mut [u8; 24],
    used: &mut usize,
    line: &mut usize,
    column: &mut usize,
) -> u8
    ensures { read_as result shown.new key.new used.new line.new column.new
        ≡ read_out (record_read text.now) }
{
    card::record::card_record_read(text, shown, key, used, line, column)
}

#[unsafe(no_mangle)]
pub extern "C" fn card_record_write(
    number: u64,
    version: u16,
    algorithm: u64,
    usage: u64,
    side: u64,
    place: u64,
    mcc: u64,
    mnc: u64,
    key: &[u8; 24],
    buf: &mut [u8],
    length: &mut usize,
) -> u8
    ensures { written_as result length.new buf.new
        ≡ written_out number (asking version algorithm usage side place mcc mnc) key.now buf.old }
{
    card::record::card_record_write(
        number, version, algorithm, usage, side, place, mcc, mnc, key, buf, length,
    )
}

#[unsafe(no_mangle)]
pub extern "C" fn card_plan(
    kind: u64,
    state: u64,
    flag: u64,
    length: usize,
    address: usize,
    sdu: usize,
    pieces: &mut [usize; 6],
) -> u8
    ensures { planned_as result pieces.new ≡ planned_out (plan_of kind state flag length address sdu) }
{
    card::plan_call::card_plan(kind, state, flag, length, address, sdu, pieces)
}

#[unsafe(no_mangle)]
pub extern "C" fn card_slotlist(sheet: &[u8], buf: &mut [u8]) -> usize
    ensures { (result ≡ listed_length sheet.now buf.old) × (buf.new ≡ listed_buffer sheet.now buf.old) }
{
    card::listing::card_slotlist(sheet, buf)
}
