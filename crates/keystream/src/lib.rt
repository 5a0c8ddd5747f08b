// The keystream xored into runs of bits of a lent buffer, block by block: no call holds more than two blocks of it.
// What a call makes is a value: `begin` alone fills a key schedule, `make` alone makes a block, and both count.
#![tactic(auto)]

ghost use Rattle.std.specs.Prelude.{◌≡◌, ◌+◌, ◌-◌, ◌*◌, ◌/◌, ◌%◌, ◌<◌, ◌≤◌, max, length, set};
ghost use Rattle.laws.specs.Lists.{tabulate};
ghost use Rattle.schedule.specs.Schedule.{key_word};
ghost use Rattle.span.specs.Span.{longest_buffer, longest_stream, xored, stream_bit};
ghost use Rattle.block_counts.specs.Counts.{block_after, blocks_used};
ghost use Rattle.tea.specs.Keystream.{block_of};
ghost use Rattle.keystream.specs.Stream.{keystream};
ghost use Rattle.keystream.specs.Work.{begun, with_block, at_block, Held, Fits, Later, through_run, blocks_over};

use gf256::SBox;
use products::ProductTable;
use tea::mode::Mode;

// Buffer bits from `start` on, and keystream bits from `skip` on: n of each.
#[derive(Clone, Copy)]
pub struct Run {
    pub start: usize,
    pub n: usize,
    pub skip: usize,
}

// What a call has made: key schedules and blocks.
#[derive(Clone, Copy)]
pub struct Tally {
    pub schedules: usize,
    pub blocks: usize,
}

// The same on the way, with the number after the last block's.
#[derive(Clone, Copy)]
struct Work {
    schedules: usize,
    blocks: usize,
    next: usize,
}

// What the blocks of a keystream are made with: its mode, the schedule of the mode's key, and the tables.
#[derive(Drop)]
struct Engine<'a> {
    mode: &'a Mode,
    w: &'a [u32; 120],
    table: &'a SBox,
    mixes: &'a ProductTable,
    ghost keyed: { w.now ≡ tabulate (key_word mode.now.key) 0 120 },
}

// Fills the schedule: the card's one caller of `fill_schedule`.
fn begin(w: &mut [u32; 120], key: [u8; 24], table: &SBox) -> Work
    ensures { (w.new ≡ tabulate (key_word key) 0 120) × (result ≡ begun) }
{
    schedule::fill_schedule(w, key, table);
    Work {
        schedules: 1,
        blocks: 0,
        next: 0,
    }
}

// Makes block j: the card's one caller of `cipher_block`. Each number is above those made before, so none is made
// twice. The block is kept by the parity of its number: an array that is not indexed by a variable would be taken apart into 32 numbers, which
// cost a long call 6 % of its time.
fn make(work: Work, kept: &mut [[u8; 32]; 2], engine: &Engine, j: usize) -> Work
    requires { (work.next ≤ j) × (work.blocks ≤ j) × (j < 256) }
    ensures { (result ≡ with_block work j) × (kept.new ≡ set kept.old (j % 2) (block_of engine.now.mode.now j)) }
{
    let mode = engine.mode;
    let value = mode.value;
    kept[j % 2] = rijndael::cipher_block(
        tea::plaintext::plaintext(value, mode.digit, j as u32),
        engine.w,
        engine.table,
        engine.mixes,
    );
    Work {
        schedules: work.schedules,
        blocks: work.blocks + 1,
        next: j + 1,
    }
}

// Block j at hand: the last one, or one that is made.
fn reach(work: Work, kept: &mut [[u8; 32]; 2], engine: &Engine, j: usize) -> Work
    requires { (work.next ≤ j + 1) × (work.blocks ≤ work.next) × (j < 256) × Held engine.now.mode.now work.next kept.old }
    ensures { (result ≡ at_block work j) × Held engine.now.mode.now (j + 1) kept.new }
{
    if work.next == j + 1 {
        return work;
    }
    make(work, kept, engine, j)
}

// Buffer bit start + i becomes itself xor bit skip + i of the mode's keystream, for i below n.
fn xor_run(work: Work, kept: &mut [[u8; 32]; 2], buf: &mut [u8], p: Run, engine: &Engine) -> Work
    requires { (length buf.old ≤ longest_buffer) × Fits buf.old p × (0 < p.n → work.next ≤ p.skip / 256 + 1) × (work.blocks ≤ work.next) × Held engine.now.mode.now work.next kept.old }
    ensures { (buf.new ≡ through_run buf.old (stream_bit (block_of engine.now.mode.now)) p)
        × (result.schedules ≡ work.schedules)
        × (result.next ≡ block_after work.next p.skip p.n)
        × (result.blocks ≡ work.blocks + (result.next - max work.next (p.skip / 256)))
        × (result.blocks ≤ result.next)
        × Held engine.now.mode.now result.next kept.new }
{
    let start = p.start;
    let n = p.n;
    let skip = p.skip;
    let mut made = work;
    // No `for`: how far a turn goes is what its block still has.
    let mut done = 0;
    while done < n {
        let at = skip + done;
        let from = at % 256;
        let some = (n - done).min(256 - from);
        made = reach(made, kept, engine, at / 256);
        let b = kept[at / 256 % 2];
        span::xor_block(buf, b, start + done, from, some);
        done += some;
    }
    made
}

// Two runs of one keystream, the second behind the first: bit start + i of the buffer becomes itself xor keystream bit skip + i, for i below n,
// first for the one and then for the other. The schedule is filled once, and a block that both use is made once.
pub fn xor_runs(buf: &mut [u8], p: Run, q: Run, algorithm: u64, ck: [u8; 24], iv: [u8; 10]) -> Tally
    requires { (length buf.old ≤ longest_buffer) × Fits buf.old p × Fits buf.old q × Later p q }
    ensures { (buf.new ≡ through_run (through_run buf.old (keystream algorithm ck iv) p) (keystream algorithm ck iv) q)
        × (result.schedules ≡ 1)
        × (result.blocks ≡ blocks_over p q) }
{
    let table = SBox::new();
    let mode = tea::mode::mode_of(algorithm, ck, iv);
    let key = mode.key;
    let mut w = [0u32; 120];
    let mut made = begin(&mut w, key, &table);
    let mixes = ProductTable::new();
    let engine = Engine {
        mode: &mode,
        w: &w,
        table: &table,
        mixes: &mixes,
    };
    let mut kept = [[0u8; 32]; 2];
    for run in [p, q] {
        made = xor_run(made, &mut kept, buf, run, &engine);
    }
    Tally {
        schedules: made.schedules,
        blocks: made.blocks,
    }
}

// One run.
pub fn xor_keystream(
    buf: &mut [u8],
    start: usize,
    n: usize,
    skip: usize,
    algorithm: u64,
    ck: [u8; 24],
    iv: [u8; 10],
) -> Tally
    requires { (length buf.old ≤ longest_buffer) × (start + n ≤ 8 * length buf.old) × (skip + n ≤ longest_stream) }
    ensures { (buf.new ≡ xored buf.old (keystream algorithm ck iv) start skip n)
        × (result.schedules ≡ 1)
        × (result.blocks ≡ blocks_used skip n) }
{
    let none = Run {
        start: 0,
        n: 0,
        skip: 0,
    };
    xor_runs(buf, Run { start, n, skip }, none, algorithm, ck, iv)
}
