// Why a call is refused, and the numbers of the refusals, which an engineer sees (document 01, "Numbers an engineer sees"). 0 is done.
#![tactic(auto)]

ghost use Rattle.std.specs.Prelude.{◌≡◌};
ghost use Rattle.refusals.specs.Refused.{number, number_of, refused_when};

// The number of a call that is not refused, as C gets it.
pub const DONE: u8 = 0;

// Each has the name of its number in specs/Numbers.antt.
#[derive(Clone, Copy, Debug, PartialEq, Eq)]
pub enum Refusal {
    // algorithm not 5, 6, 7
    AlgorithmUnknown = 1,
    // bench key not 24 bytes
    BenchKeyNot24 = 2,
    // IV not 10 bytes
    IvNot10 = 3,
    // length 0, or skip + length above 8,288
    LengthBad = 4,
    // buffer above 8,192 bytes
    BufferLarge = 5,
    // start + length above 8 times the buffer's bytes
    SpanOutside = 6,
    // slot number not 1..32
    SlotNumberBad = 7,
    // slot empty
    SlotEmpty = 8,
    // target slot filled
    TargetFilled = 9,
    // use or direction code unknown
    CodeUnknown = 10,
    // side above 1 or place above 79
    SideOrPlaceBad = 11,
    // use doesn't include the direction
    DirectionNotInUse = 12,
    // IV side bit wrong
    IvSideWrong = 13,
    // asked use not within the present use
    UseNotWithin = 14,
    // record text bad; line and column given
    RecordTextBad = 15,
    // table not 32 records, or a bad slot in it
    TableBad = 16,
    // record text longer than the buffer
    RecordTooLong = 17,
    // PDU kind, state or flag unknown, or PDU above 8,288 bits
    PduCodeUnknown = 18,
    // PDU parts don't fit
    PduPartsDontFit = 19,
    // mobile country code above 1,023 or mobile network code above 16,383
    NetworkBad = 20,
    // algorithm out of service
    AlgorithmOutOfService = 21,
    // conversion check: a text of records does not read, or repeats a number
    ConversionTextBad = 22,
    // conversion check: above 32 pairs, a number in them that is not there or is repeated, or an after record without a pair
    PairListBad = 23,
    // conversion check: a pair that widens its use, or differs in another field or the key
    PairDiffers = 24,
    // mending: a name missing, doubled or unknown for the form, a last line without its LF, or a longer text
    SheetNamesBad = 25,
    // mending: a value is still out of form or range
    SheetValueBad = 26,
    // month sheet: a line of the call log is bad
    LogLineBad = 27,
}

impl Refusal {
    pub fn number(self) -> u8
        ensures { result ≡ number self }
    {
        self as u8
    }

    // This refusal where the test holds. An order of refusals is a line of it for each, with `?`, as in specs/.
    pub fn when(self, test: bool) -> Result<(), Refusal>
        ensures { result ≡ refused_when self test }
    {
        if test { Err(self) } else { Ok(()) }
    }
}

// The number of what was judged: 0 where nothing refuses it.
pub fn number_of(judged: Result<(), Refusal>) -> u8
    ensures { result ≡ number_of judged }
{
    match judged {
        Ok(()) => DONE,
        Err(refusal) => refusal.number(),
    }
}
