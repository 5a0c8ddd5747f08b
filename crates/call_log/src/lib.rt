// A call log, read in one pass as it comes, a block at a time (document 02, [13]). What is read so far is a value; the figures lie in a lent array.
#![tactic(auto)]

mod part;

ghost use Rattle.std.specs.Prelude.{◌≡◌};
ghost use Rattle.call_log.specs.Fed.{line_start, call_of, ended, fed_byte, fed, fed_to, ends_line, wrong_line};

use logged_calls::Call;
use part::{in_line, line_start, stopped};

// How many figures there are.
pub const FIGURES: usize = logged_calls::figures::FIGURES;

const MOST_LINES: u64 = 65535;

// How far a log is read: the line, counted from 1, and whether all is good so far; the part of the line, how far into it, its number so
// far; and the four numbers before that one. It is no enum of what a log leads to: `feed` takes any month and asks nothing, and `fed` of specs/ says what it makes
// of each; so parts and places are numbers too.
#[derive(Clone, Copy)]
pub struct Month {
    pub line: u64,
    pub good: bool,
    pub part: u64,
    pub at: u64,
    pub number: u64,
    pub first: u64,
    pub second: u64,
    pub third: u64,
    pub fourth: u64,
}

// A log of which nothing is read.
pub fn start() -> Month
    ensures { result ≡ line_start 1 }
{
    line_start(1)
}

fn call_of(m: Month) -> Call
    ensures { result ≡ call_of m }
{
    Call {
        slot: m.first,
        direction: m.second,
        bits: m.third,
        blocks: m.fourth,
        code: m.number,
    }
}

// A line is ended.
fn end_line(m: Month, figures: &mut [u64]) -> Month
    ensures { fed_to result figures.new ≡ ended m figures.old }
{
    let c = call_of(m);
    if MOST_LINES < m.line {
        return stopped(m.line);
    }
    if !c.is_sound() {
        return stopped(m.line);
    }
    log_figures::add(figures, c);
    line_start(m.line + 1)
}

fn ends_line(m: Month, b: u8) -> bool
    ensures { result ≡ ends_line m b }
{
    b == 10 && (m.part == 4 && 9 <= m.at)
}

fn feed_byte(m: Month, figures: &mut [u64], b: u8) -> Month
    ensures { fed_to result figures.new ≡ fed_byte (fed_to m figures.old) b }
{
    if !m.good {
        return m;
    }
    if ends_line(m, b) {
        return end_line(m, figures);
    }
    in_line(m, b)
}

// The next block of a log. To feed two blocks one after the other is to feed them joined, wherever a line is cut.
pub fn feed(m: Month, figures: &mut [u64], block: &[u8]) -> Month
    ensures { fed_to result figures.new ≡ fed (fed_to m figures.old) block.now }
{
    let mut now = m;
    for b in block {
        now = feed_byte(now, figures, *b);
    }
    now
}

// The first line that is wrong, once the log is over; 0 where there is none.
pub fn wrong_line(m: Month) -> u64
    ensures { result ≡ wrong_line m }
{
    if !m.good {
        return m.line;
    }
    if m.part != 0 {
        return m.line;
    }
    if m.at != 0 {
        return m.line;
    }
    0
}
