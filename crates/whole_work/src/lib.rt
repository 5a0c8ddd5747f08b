// The work of a whole PDU that was judged, with a slot's key: every piece of its plan is ciphered, or no bit changes.
#![tactic(auto)]

ghost use Rattle.std.specs.Prelude.{◌≡◌, ◌≤◌, length};
ghost use Rattle.span.specs.Span.{longest_buffer};
ghost use Rattle.keystream.specs.Stream.{keystream};
ghost use Rattle.keystream.specs.Work.{Fits, Later};
ghost use Rattle.ciphering.specs.Span.{schedules_for, ciphered_as};
ghost use Rattle.whole.specs.Whole.{run_from, run_of, ciphered, plan_blocks, WholeMay, whole_after};

use ciphering::Report;
use ciphering::lent::bytes_of;
use keystream::{Run, Tally};
use plan::{Piece, Plan};
use slots::Slot;
use whole::has_no_piece;

const NOTHING_MADE: Tally = Tally {
    schedules: 0,
    blocks: 0,
};

// The bits of a piece, with the keystream's from `skip` on.
fn run_of(p: Piece, skip: usize) -> Run
    ensures { result ≡ run_from p skip }
{
    Run {
        start: p.start,
        n: p.length,
        skip,
    }
}

// Each piece of a plan becomes itself xor its part of the keystream; every other bit stays. Where there is no piece, no schedule is filled.
fn cipher_pieces(buf: &mut [u8], p: Plan, algorithm: u64, key: [u8; 24], iv: [u8; 10]) -> Tally
    requires { (length buf.old ≤ longest_buffer) × Fits buf.old (run_of p.first) × Fits buf.old (run_of p.second) × Later (run_of p.first) (run_of p.second) }
    ensures { (buf.new ≡ ciphered buf.old (keystream algorithm key iv) p)
        × (result.blocks ≡ plan_blocks p)
        × (result.schedules ≡ schedules_for (plan_blocks p)) }
{
    if has_no_piece(p) {
        return NOTHING_MADE;
    }
    let first = run_of(p.first, p.first.skip);
    let second = run_of(p.second, p.second.skip);
    keystream::xor_runs(buf, first, second, algorithm, key, iv)
}

// The work of a plan that was judged. Reports how many blocks were made. Where there is no piece, the slot's key has no say.
pub fn whole_of(p: Plan, slot: Slot, iv: &[u8], buf: &mut [u8]) -> Report
    requires { WholeMay p iv.now buf.old }
    ensures { (ciphered_as result.refusal buf.new result.blocks ≡ whole_after p slot iv.now buf.old)
        × (result.schedules ≡ schedules_for result.blocks) }
{
    let refusal = p.refusal;
    if refusal != refusals::DONE {
        return Report {
            refusal,
            blocks: 0,
            schedules: 0,
        };
    }
    let f = slot.fields;
    let key = slot.key;
    let made = cipher_pieces(buf, p, f.algorithm as u64, key, bytes_of(iv));
    Report {
        refusal,
        blocks: made.blocks,
        schedules: made.schedules,
    }
}
