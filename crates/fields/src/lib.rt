// The fields of a key, which may be shown, their ranges, and the refusals that load and record writing share.
#![tactic(auto)]

ghost use Rattle.std.specs.Prelude.{◌≡◌, true, ◌&&◌, leb};
ghost use Rattle.refusals.specs.Refused.{number_of};
ghost use Rattle.fields.specs.Fields.{between, is_slot_number, is_algorithm, out_of_service, is_use, is_side, is_place, is_mcc, is_mnc, rights_refusal, all_in_range, stored_of, asked_of};

use refusals::Refusal;

// As a slot holds them. Usage is 1 send, 2 receive, 3 both.
#[repr(C)]
#[derive(Clone, Copy, Debug, PartialEq, Eq)]
pub struct Fields {
    pub version: u16,
    pub algorithm: u8,
    pub usage: u8,
    pub side: u8,
    pub place: u8,
    pub mcc: u16,
    pub mnc: u16,
}

// As a caller gives them: wide, so that no number that an engineer can type is cut before it is refused.
#[derive(Clone, Copy, Debug, PartialEq, Eq)]
pub struct Asked {
    pub version: u16,
    pub algorithm: u64,
    pub usage: u64,
    pub side: u64,
    pub place: u64,
    pub mcc: u64,
    pub mnc: u64,
}

fn lies_between(low: u64, n: u64, high: u64) -> bool
    ensures { result ≡ between low n high }
{
    low <= n && n <= high
}

pub fn is_slot_number(n: u64) -> bool
    ensures { result ≡ is_slot_number n }
{
    lies_between(1, n, 32)
}

pub fn is_algorithm(a: u64) -> bool
    ensures { result ≡ is_algorithm a }
{
    lies_between(5, a, 7)
}

// TEA6 is loaded no more, and sends no more. A slot may hold it.
pub fn is_out_of_service(a: u64) -> bool
    ensures { result ≡ out_of_service a }
{
    a == 6
}

pub fn is_use(u: u64) -> bool
    ensures { result ≡ is_use u }
{
    lies_between(1, u, 3)
}

fn both_at_most(a: u64, most_a: u64, b: u64, most_b: u64) -> bool
    ensures { result ≡ leb a most_a && leb b most_b }
{
    a <= most_a && b <= most_b
}

fn are_side_and_place(side: u64, place: u64) -> bool
    ensures { result ≡ is_side side && is_place place }
{
    both_at_most(side, 1, place, 79)
}

fn is_network(mcc: u64, mnc: u64) -> bool
    ensures { result ≡ is_mcc mcc && is_mnc mnc }
{
    both_at_most(mcc, 1023, mnc, 16383)
}

// The ranges alone, with no order of refusals: a call on a table asks this of each of its slots.
// `&` joins each pair, so that the compiler makes a branch of each limit: with `&&` alone a full table takes more than half as long again. The pair
// with the algorithm comes first: the other way about a full table takes a quarter longer (docs/DESIGN-PASS.md).
pub fn are_in_range(a: Asked) -> bool
    ensures { result ≡ all_in_range a }
{
    (is_algorithm(a.algorithm) & is_network(a.mcc, a.mnc))
        && (is_use(a.usage) & are_side_and_place(a.side, a.place))
}

// Refusals 10, 11 and 20, in this order.
pub fn rights_refusal(a: Asked) -> Result<(), Refusal>
    ensures { number_of result ≡ rights_refusal a }
{
    Refusal::CodeUnknown.when(!is_use(a.usage))?;
    Refusal::SideOrPlaceBad.when(!are_side_and_place(a.side, a.place))?;
    Refusal::NetworkBad.when(!is_network(a.mcc, a.mnc))
}

// The fields in a slot's own widths. No `TryFrom`: a number out of its range has a refusal of its own, which was given before.
pub fn stored(a: Asked) -> Fields
    requires { all_in_range a ≡ true }
    ensures { result ≡ stored_of a }
{
    Fields {
        version: a.version,
        algorithm: a.algorithm as u8,
        usage: a.usage as u8,
        side: a.side as u8,
        place: a.place as u8,
        mcc: a.mcc as u16,
        mnc: a.mnc as u16,
    }
}

// Every number that a slot holds can be asked for.
impl From<Fields> for Asked {
    ghost from_gives = { λ f a. a ≡ asked_of f };

    fn from(f: Fields) -> Asked {
        Asked {
            version: f.version,
            algorithm: f.algorithm as u64,
            usage: f.usage as u64,
            side: f.side as u64,
            place: f.place as u64,
            mcc: f.mcc as u64,
            mnc: f.mnc as u64,
        }
    }
}
