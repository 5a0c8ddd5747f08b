// The work of a traffic call that was judged, with a slot's key, on any run of bits of a lent buffer.
#![tactic(auto)]

ghost use Rattle.std.specs.Prelude.{◌≡◌};
ghost use Rattle.ciphering.specs.Span.{schedules_for, ciphered_as};
ghost use Rattle.traffic.specs.Traffic.{TrafficMay, traffic_after};

use ciphering::Report;
use ciphering::lent::bytes_of;
use ciphering::xor::cipher_from;
use keystream::Run;
use slots::Slot;

// The work of a call that was judged: buffer bit start + i becomes itself xor keystream bit skip + i, for i below n; every other bit stays. Reports how
// many blocks were made. After a refusal the slot is not looked at.
#[tactic(auto, using(ciphering::proofs::Passed::work_steps))]
pub fn traffic_of(
    refusal: u8,
    slot: Slot,
    iv: &[u8],
    buf: &mut [u8],
    start: usize,
    n: usize,
    skip: usize,
) -> Report
    requires { TrafficMay refusal iv.now buf.old start n skip }
    ensures { (ciphered_as result.refusal buf.new result.blocks
        ≡ traffic_after refusal slot iv.now buf.old start n skip)
        × (result.schedules ≡ schedules_for result.blocks) }
{
    if refusal != refusals::DONE {
        return Report {
            refusal,
            blocks: 0,
            schedules: 0,
        };
    }
    let f = slot.fields;
    let key = slot.key;
    let run = Run { start, n, skip };
    let made = cipher_from(buf, run, f.algorithm as u64, key, bytes_of(iv));
    Report {
        refusal,
        blocks: made.blocks,
        schedules: made.schedules,
    }
}
