// What the program `converted` prints, from the bytes of its input (document 02, [11]).
#![tactic(auto)]

mod input;

ghost use Rattle.std.specs.Prelude.{◌≡◌, ◌+◌, ◌^◌, ◌<◌, ◌≤◌, IfErr, IfSome, length};
ghost use Rattle.writing.specs.Writing.{Put};
ghost use Rattle.conversion_sheet.specs.Report.{conversion_report, report_room, report_of};
ghost use Rattle.conversion_sheet.specs.Answers.{report_text};

use conversion::{Refused, check};
use conversion_pairs::pair_count;
use input::{read_pairs, split_text};
use refusals::Refusal;
use writing::{put_item, put_line};

// Every report fits so many bytes.
pub const ROOM: usize = 64;

// A text and its length; the bytes behind it are zeros.
#[derive(Clone, Copy)]
pub struct Report {
    pub length: usize,
    pub text: [u8; ROOM],
}

// The longest input that is looked at: no good one is as long.
pub const LONGEST_INPUT: usize = 16384;

// How many pairs the input has, where the check passes.
#[tactic(auto, unfolding(crate::specs::Report::conversion_report, crate::specs::Report::checked_text))]
fn converted(input: &[u8]) -> Result<usize, Refused>
    ensures text { report_text result ≡ conversion_report input.now }
    ensures within { IfErr result (λ e. IfSome e.pair (λ i. i + 1 < 2 ^ 64)) }
{
    Refusal::ConversionTextBad.when(LONGEST_INPUT < input.len())?;
    let (before, rest) = split_text(input);
    let (after, lines) = split_text(rest);
    let pairs = read_pairs(lines);
    check(before, after, &pairs)?;
    Ok(pair_count(&pairs))
}

// The whole report, at the front of the buffer: the number of pairs, or the refusal and its pair. Answers with its length.
fn put_report(input: &[u8], buffer: &mut [u8; ROOM]) -> usize
    ensures { (result ≤ report_room) × Put buffer.old 0 (conversion_report input.now) buffer.new result }
{
    match converted(input) {
        Ok(count) => put_line(buffer, 0, b"converted=", count as u64),
        Err(refused) => {
            let number = refused.refusal.number() as u64;
            let place = refused.place() as u64;
            let end = put_item(buffer, 0, b"refused=", number);
            put_line(buffer, end, b" pair=", place)
        }
    }
}

// The whole report.
pub fn report_on(input: &[u8]) -> Report
    ensures { result ≡ report_of (conversion_report input.now) }
{
    let mut text = [0u8; ROOM];
    let length = put_report(input, &mut text);
    Report { length, text }
}
