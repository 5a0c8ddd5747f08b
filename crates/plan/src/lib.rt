// Which bits of a direct mode PDU are ciphered, and by which keystream bits (document 01, "Plan of a direct mode PDU").
#![tactic(auto)]

ghost use Rattle.std.specs.Prelude.{◌≡◌, ◌||◌, ◌+◌, ◌≤◌, ltb, eqb};
ghost use Rattle.refusals.specs.Numbers.{done};
ghost use Rattle.refusals.specs.Refused.{number_of};
ghost use Rattle.plan.specs.Plan.{sync_on_sch_s, address_bits, rest_from, address_from, clear_head, second_skip, longest_pdu, no_piece, past_keystream, codes_unknown, parts_dont_fit, plan_refusal, with_pieces, refused_plan, plan_as, planned_pieces, plan_of};

use refusals::Refusal;

// Kinds 1 and 3; kind 2, DMAC-SYNC on SCH/H, is the one between. They stay numbers, as the definitions have them: an enum would be turned back to its number
// in each contract, and the tests of one refusal have no order.
const DMAC_DATA: u64 = 1;

const SYNC_ON_SCH_S: u64 = 3;

const LONGEST_PDU: usize = 8288;

const ADDRESS_BITS: usize = 24;

const KEYSTREAM_BITS: usize = 8288;

// PDU bit start + i is ciphered by keystream bit skip + i, for i below length.
#[derive(Clone, Copy, Debug, PartialEq, Eq)]
pub struct Piece {
    pub start: usize,
    pub length: usize,
    pub skip: usize,
}

// Up to two pieces, the first place filled first. A place without a piece holds zeros and is no `None`: `no_piece` says so, and C gets the zeros.
#[derive(Clone, Copy, Debug, PartialEq, Eq)]
pub struct Pieces {
    pub first: Piece,
    pub second: Piece,
}

// The same, or a refusal, as a caller gets it that judges no more: after a refusal there is no piece.
#[derive(Clone, Copy)]
pub struct Plan {
    pub refusal: u8,
    pub first: Piece,
    pub second: Piece,
}

const NO_PIECE: Piece = Piece {
    start: 0,
    length: 0,
    skip: 0,
};

impl From<Result<Pieces, Refusal>> for Plan {
    ghost from_gives = { λ planned p. p ≡ plan_as planned };

    fn from(planned: Result<Pieces, Refusal>) -> Plan {
        match planned {
            Ok(pieces) => Plan {
                refusal: refusals::DONE,
                first: pieces.first,
                second: pieces.second,
            },
            Err(refusal) => refused_plan(refusal.number()),
        }
    }
}

pub fn refused_plan(number: u8) -> Plan
    ensures { result ≡ refused_plan number }
{
    Plan {
        refusal: number,
        first: NO_PIECE,
        second: NO_PIECE,
    }
}

// What a plan is made of. Length, address and sdu are bits.
#[derive(Clone, Copy)]
struct Pdu {
    kind: u64,
    state: u64,
    flag: u64,
    length: usize,
    address: usize,
    sdu: usize,
}

// The piece from a bit to the end of the PDU; a piece of length 0 is left out.
fn rest_from(from: usize, length: usize, skip: usize) -> Piece
    ensures { result ≡ rest_from from length skip }
{
    if from < length {
        Piece {
            start: from,
            length: length - from,
            skip,
        }
    } else {
        NO_PIECE
    }
}

fn address_from(address: usize) -> Piece
    ensures { result ≡ address_from address }
{
    Piece {
        start: address,
        length: ADDRESS_BITS,
        skip: 0,
    }
}

// A piece at the first place, and none at the second.
fn alone(first: Piece) -> Pieces
    ensures { (result.first ≡ first) × (result.second ≡ no_piece) }
{
    Pieces {
        first,
        second: NO_PIECE,
    }
}

// The bits at the front that stay clear in state 1.
fn clear_head(kind: u64, flag: u64) -> usize
    ensures { result ≡ clear_head kind flag }
{
    if kind == DMAC_DATA {
        10
    } else if flag == 1 {
        18
    } else {
        12
    }
}

// The DM-SDU starts before the address ends. An address may start anywhere, so its end is not summed.
fn starts_early(address: usize, sdu: usize) -> bool
    ensures { result ≡ ltb sdu (address + address_bits) }
{
    sdu < ADDRESS_BITS || sdu - ADDRESS_BITS < address
}

// The keystream bit at which the DM-SDU starts in state 3.
fn second_skip(address: usize, sdu: usize) -> usize
    requires { (address + address_bits ≤ sdu) × (sdu ≤ longest_pdu) }
    ensures { result ≡ second_skip address sdu }
{
    ADDRESS_BITS + (sdu - address - ADDRESS_BITS) + 1
}

// The DM-SDU needs a keystream bit past the last. Its skip and its bits are length - address + 1 together, compared without that sum.
fn past_keystream(length: usize, address: usize, sdu: usize) -> bool
    requires { (address + address_bits ≤ sdu) × (sdu ≤ length) }
    ensures { result ≡ past_keystream length address sdu }
{
    sdu < length && KEYSTREAM_BITS <= length - address
}

impl Pdu {
    // `|` and not `||`: the tests of one number have no order.
    fn codes_unknown(self) -> bool
        ensures { result ≡ codes_unknown self.kind self.state self.flag self.length }
    {
        (self.kind == 0)
            | (self.kind > 3)
            | (self.state > 3)
            | (self.flag > 1)
            | (self.length > LONGEST_PDU)
    }

    fn stays_clear(self) -> bool
        ensures { result ≡ eqb self.kind sync_on_sch_s || eqb self.state 0 }
    {
        self.kind == SYNC_ON_SCH_S || self.state == 0
    }

    fn parts_dont_fit(self) -> bool
        ensures { result ≡ parts_dont_fit self.kind self.state self.flag self.length self.address self.sdu }
    {
        match self.state {
            _ if self.stays_clear() => false,
            1 => self.length < clear_head(self.kind, self.flag),
            2 => self.length < self.sdu,
            _ => {
                starts_early(self.address, self.sdu)
                    || self.length < self.sdu
                    || past_keystream(self.length, self.address, self.sdu)
            }
        }
    }

    #[tactic(auto, unfolding(crate::specs::Plan::plan_refusal))]
    fn refusal(self) -> Result<(), Refusal>
        ensures { number_of result ≡ plan_refusal self.kind self.state self.flag self.length self.address self.sdu }
    {
        Refusal::PduCodeUnknown.when(self.codes_unknown())?;
        Refusal::PduPartsDontFit.when(self.parts_dont_fit())
    }

    // The pieces of a PDU that is not refused.
    #[tactic(auto, unfolding(crate::specs::Plan::planned_pieces))]
    fn pieces(self) -> Pieces
        requires { plan_refusal self.kind self.state self.flag self.length self.address self.sdu ≡ done }
        ensures { with_pieces result.first result.second ≡ planned_pieces self.kind self.state self.flag self.length self.address self.sdu }
    {
        match self.state {
            _ if self.stays_clear() => alone(NO_PIECE),
            1 => alone(rest_from(clear_head(self.kind, self.flag), self.length, 0)),
            2 => alone(rest_from(self.sdu, self.length, 0)),
            _ => {
                let skip = second_skip(self.address, self.sdu);
                Pieces {
                    first: address_from(self.address),
                    second: rest_from(self.sdu, self.length, skip),
                }
            }
        }
    }
}

// The plan of a PDU. kind is 1 for DMAC-DATA, 2 for DMAC-SYNC on SCH/H, 3 for DMAC-SYNC on SCH/S; state is the air interface encryption
// state, 0 to 3; flag is the fragmentation flag; length is in bits; address and sdu are the bits at which the destination address and
// the DM-SDU start, counted from 0.
#[tactic(auto, using(refusals::proofs::Judged::judged_steps), unfolding(crate::specs::Plan::plan_of))]
pub fn plan_pdu(
    kind: u64,
    state: u64,
    flag: u64,
    length: usize,
    address: usize,
    sdu: usize,
) -> Result<Pieces, Refusal>
    ensures { plan_as result ≡ plan_of kind state flag length address sdu }
{
    let pdu = Pdu {
        kind,
        state,
        flag,
        length,
        address,
        sdu,
    };
    pdu.refusal()?;
    Ok(pdu.pieces())
}
