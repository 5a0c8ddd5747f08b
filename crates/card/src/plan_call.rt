// The plan of a direct mode PDU, for C.
ghost use Rattle.std.specs.Prelude.{◌≡◌};
ghost use Rattle.plan.specs.Plan.{plan_of};
ghost use Rattle.faces.specs.Faces.{planned_as, planned_out};

use plan::Plan;

// Leaves start, length and skip of the first piece and of the second in `pieces`; zeros where there is none, and on a refusal.
#[unsafe(no_mangle)]
pub extern "C" fn card_plan(
    kind: u64,
    state: u64,
    flag: u64,
    length: usize,
    address: usize,
    sdu: usize,
    pieces: &mut [usize; 6],
) -> u8
    ensures { planned_as result pieces.new ≡ planned_out (plan_of kind state flag length address sdu) }
{
    let p = Plan::from(plan::plan_pdu(kind, state, flag, length, address, sdu));
    *pieces = faces::piece_numbers(p);
    p.refusal
}
