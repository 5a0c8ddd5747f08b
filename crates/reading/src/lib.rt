// Readers of text: given bytes, decimal numbers, words, hex digits. Each goes on after what was read before it, and passes on a wrong place that was found there.
#![tactic(auto)]

ghost use Rattle.std.specs.Prelude.{◌≡◌, ◌≤◌, length};
ghost use Rattle.forms.specs.Form.{done, read_at, literal, named};
ghost use Rattle.forms.specs.Decimals.{is_digit, may_begin, may_follow, after, decimal};
ghost use Rattle.forms.specs.Words.{one_of};
ghost use Rattle.reading.specs.Reading.{onward, answer, reading_of, further};

// What is read so far: the last value, and the place after its text.
#[derive(Clone, Copy, Debug, PartialEq, Eq)]
pub struct Found {
    pub value: u64,
    pub place: usize,
}

// The place of the first byte that is wrong.
#[derive(Clone, Copy, Debug, PartialEq, Eq)]
pub struct WrongAt {
    pub place: usize,
}

pub type ReadTo = Result<Found, WrongAt>;

// The same in three fields, for a caller that keeps them: once a byte is wrong, no value counts, and the place is that byte's.
#[derive(Clone, Copy)]
pub struct Reading {
    pub good: bool,
    pub value: u64,
    pub place: usize,
}

// The given bytes.
pub fn read_literal<'a>(s: &'a [u8], before: ReadTo, bytes: &'a [u8]) -> ReadTo
    ensures { reading_of result ≡ answer (onward (reading_of before) (literal bytes.now) s.now) }
{
    let mut place = before?.place;
    for &b in bytes {
        if s.len() <= place || s[place] != b {
            return Err(WrongAt { place });
        }
        place += 1;
    }
    Ok(Found { value: 0, place })
}

// May a number from `low` to `high` begin with the byte `b`?
#[tactic(auto, unfolding(forms::specs::Decimals::may_begin))]
pub fn may_begin(low: u64, high: u64, b: u8) -> bool
    ensures { result ≡ may_begin low high b }
{
    if !b.is_ascii_digit() {
        return false;
    }
    let digit = (b - b'0') as u64;
    low <= digit && digit <= high
}

// May the byte `b` follow digits of the value `n`? The number that they make is not made here: it may be too large for a machine.
#[tactic(auto, unfolding(forms::specs::Decimals::may_follow))]
pub fn may_follow(high: u64, n: u64, b: u8) -> bool
    ensures { result ≡ may_follow high n b }
{
    if !b.is_ascii_digit() || n == 0 {
        return false;
    }
    let digit = (b - b'0') as u64;
    digit <= high && n <= (high - digit) / 10
}

// After digits of the value `n`: more digits, and LF.
fn read_after(s: &[u8], at: usize, high: u64, n: u64) -> ReadTo
    requires { at ≤ length s.now }
    ensures { reading_of result ≡ answer (read_at (after high n) s.now at) }
{
    let mut value = n;
    for i in at..s.len() {
        let b = s[i];
        if b == b'\n' {
            return Ok(Found {
                value,
                place: i + 1,
            });
        }
        if !may_follow(high, value, b) {
            return Err(WrongAt { place: i });
        }
        value = value * 10 + (b - b'0') as u64;
    }
    Err(WrongAt { place: s.len() })
}

// A number from `low` to `high`, ended by LF.
pub fn read_bounded(s: &[u8], before: ReadTo, low: u64, high: u64) -> ReadTo
    ensures { reading_of result ≡ answer (onward (reading_of before) (decimal low high) s.now) }
{
    let place = before?.place;
    if s.len() <= place || !may_begin(low, high, s[place]) {
        return Err(WrongAt { place });
    }
    read_after(s, place + 1, high, (s[place] - b'0') as u64)
}

// What is read so far, in three fields.
fn fields_of(read: ReadTo) -> Reading
    ensures { result ≡ reading_of read }
{
    match read {
        Ok(found) => Reading {
            good: true,
            value: found.value,
            place: found.place,
        },
        Err(wrong) => Reading {
            good: false,
            value: 0,
            place: wrong.place,
        },
    }
}

// The same number, after a reading in three fields and to one.
pub fn read_decimal(s: &[u8], before: Reading, low: u64, high: u64) -> Reading
    ensures { result ≡ answer (onward before (decimal low high) s.now) }
{
    let Reading { good, value, place } = before;
    let after = if good {
        Ok(Found { value, place })
    } else {
        Err(WrongAt { place })
    };
    fields_of(read_bounded(s, after, low, high))
}

// A line with a number.
pub fn read_line<'a>(s: &'a [u8], before: ReadTo, name: &'a [u8], low: u64, high: u64) -> ReadTo
    ensures { reading_of result ≡ answer (onward (reading_of before) (named name.now (decimal low high)) s.now) }
{
    read_bounded(s, read_literal(s, before, name), low, high)
}

// The given bytes, for the value.
fn read_word<'a>(s: &'a [u8], before: ReadTo, word: &'a [u8], value: u64) -> ReadTo
    ensures { reading_of result ≡ answer (onward (reading_of before) (named word.now (done value)) s.now) }
{
    let end = read_literal(s, before, word)?;
    Ok(Found {
        value,
        place: end.place,
    })
}

// Of two readings from one place: the good one, or else the one that came further.
fn further(a: ReadTo, b: ReadTo) -> ReadTo
    ensures { reading_of result ≡ further (reading_of a) (reading_of b) }
{
    match (a, b) {
        (Err(first), Err(second)) => { if first.place < second.place { b } else { a } }
        (Err(_), Ok(_)) => b,
        (Ok(_), _) => a,
    }
}

// One of three words, for a value and the two that follow it; and LF.
pub fn read_one_of(
    s: &[u8],
    before: ReadTo,
    first: u64,
    a: [u8; 4],
    b: [u8; 4],
    c: [u8; 4],
) -> ReadTo
    requires { first ≤ 5 }
    ensures { reading_of result ≡ answer (onward (reading_of before) (one_of first a b c) s.now) }
{
    let one = read_word(s, before, &a, first);
    let two = read_word(s, before, &b, first + 1);
    let three = read_word(s, before, &c, first + 2);
    let word = further(one, further(two, three))?;
    read_word(s, Ok(word), b"\n", word.value)
}
