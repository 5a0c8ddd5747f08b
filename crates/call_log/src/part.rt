// A byte of a line: of a part's name, or of its number.
ghost use Rattle.std.specs.Prelude.{◌≡◌, ◌-◌, ◌<◌, ◌≤◌, get_or};
ghost use Rattle.call_log.specs.Fed.{fresh, line_start, stopped, so_far, next_part, high_of, name_byte, after_digit, first_digit, of_name, in_line};

use crate::Month;
use reading::{may_begin, may_follow};

const LAST_PART: u64 = 4;

const IN_NUMBER: u64 = 9;

// At a line's start, with nothing read of it.
fn fresh(line: u64, good: bool) -> Month
    ensures { result ≡ fresh line good }
{
    Month {
        line,
        good,
        part: 0,
        at: 0,
        number: 0,
        first: 0,
        second: 0,
        third: 0,
        fourth: 0,
    }
}

pub fn line_start(line: u64) -> Month
    ensures { result ≡ line_start line }
{
    fresh(line, true)
}

pub fn stopped(line: u64) -> Month
    ensures { result ≡ stopped line }
{
    fresh(line, false)
}

fn so_far(m: Month, at: u64, number: u64) -> Month
    ensures { result ≡ so_far m at number }
{
    Month {
        line: m.line,
        good: true,
        part: m.part,
        at,
        number,
        first: m.first,
        second: m.second,
        third: m.third,
        fourth: m.fourth,
    }
}

// The number joins the four before it.
fn next_part(m: Month, part: u64) -> Month
    ensures { result ≡ next_part m part }
{
    Month {
        line: m.line,
        good: true,
        part,
        at: 1,
        number: 0,
        first: m.second,
        second: m.third,
        third: m.fourth,
        fourth: m.number,
    }
}

fn high_of(part: u64) -> u64
    ensures { result ≡ high_of part }
{
    if part == LAST_PART {
        return 27;
    }
    65535
}

// A byte of a name, or 0 behind it.
fn byte_of(name: &[u8], at: u64) -> u8
    ensures { result ≡ get_or name.now at 0 }
{
    let i = at as usize;
    if i < name.len() {
        return name[i];
    }
    0
}

fn name_byte(part: u64, at: u64) -> u8
    ensures { result ≡ name_byte part at }
{
    if part == 0 {
        return byte_of(b"slot=", at);
    }
    if part == 1 {
        return byte_of(b" dir=", at);
    }
    if part == 2 {
        return byte_of(b" bits=", at);
    }
    if part == 3 {
        return byte_of(b" blocks=", at);
    }
    if part == 4 {
        return byte_of(b" code=", at);
    }
    0
}

fn digit(b: u8) -> u64
    requires { 48 ≤ b }
    ensures { result ≡ b - 48 }
{
    (b - 48) as u64
}

// A digit more, the space after a number, or neither.
fn after_digit(m: Month, b: u8) -> Month
    ensures { result ≡ after_digit m b }
{
    if may_follow(high_of(m.part), m.number, b) {
        return so_far(m, IN_NUMBER, m.number * 10 + digit(b));
    }
    if LAST_PART <= m.part {
        return stopped(m.line);
    }
    if b != b' ' {
        return stopped(m.line);
    }
    next_part(m, m.part + 1)
}

// A byte behind a name: the first digit of its number.
fn first_digit(m: Month, b: u8) -> Month
    ensures { result ≡ first_digit m b }
{
    if may_begin(0, high_of(m.part), b) {
        return so_far(m, IN_NUMBER, digit(b));
    }
    stopped(m.line)
}

// A byte of a name, which is to be this one.
fn of_name(m: Month, name: u8, b: u8) -> Month
    requires { m.at < 9 }
    ensures { result ≡ of_name m name b }
{
    if b == name {
        return so_far(m, m.at + 1, 0);
    }
    stopped(m.line)
}

// A byte that does not end a line.
pub fn in_line(m: Month, b: u8) -> Month
    ensures { result ≡ in_line m b }
{
    if IN_NUMBER <= m.at {
        return after_digit(m, b);
    }
    let name = name_byte(m.part, m.at);
    if name == 0 {
        return first_digit(m, b);
    }
    of_name(m, name, b)
}
