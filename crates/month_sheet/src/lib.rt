// The month sheet as text (document 02, [13]). Each writer puts a text into the buffer from a place on, and answers with the place at which it ends.
#![tactic(auto)]

ghost use Rattle.std.specs.Prelude.{◌≡◌, [], ◌∷◌, ◌++◌, ◌+◌, ◌*◌, ◌/◌, ◌%◌, ◌<◌, ◌≤◌, length, get_or};
ghost use Rattle.writing.specs.Text.{lf, digits};
ghost use Rattle.writing.specs.Writing.{Room, Put};
ghost use Rattle.logged_calls.specs.Figures.{total_row, calls_at, bits_at, blocks_at};
ghost use Rattle.call_log.specs.Fed.{fed_to};
ghost use Rattle.month_sheet.specs.Sheet.{
  row_text,
  count_text,
  total_text,
  texts,
  row_in,
  sheet_text,
  sums_in,
  whole_log,
  printed_length,
  printed_buffer,
  longest_row,
  longest_count,
  longest_total,
  sheet_room,
};

use call_log::{Month, wrong_line};
use logged_calls::figures::{FIGURES, LINES_AT, TOTAL_ROW, bits_at, blocks_at, calls_at, count_at};
use refusals::Refusal;
use shares::share_of;
use writing::{put_item, put_line};

// What is printed fits a buffer of this many bytes.
pub const ROOM: usize = 13086;

// The figures of a row: its calls, their bits and their blocks.
#[derive(Clone, Copy)]
struct Row {
    calls: u64,
    bits: u64,
    blocks: u64,
}

// A figure, or 0 where there are fewer.
fn figure(figures: &[u64], i: usize) -> u64
    ensures { result ≡ get_or figures.now i 0 }
{
    figures.get(i).copied().unwrap_or(0)
}

// The figures of a row.
fn row_at(figures: &[u64], row: usize) -> Row
    requires { row ≤ total_row }
    ensures calls { result.calls ≡ get_or figures.now (calls_at row) 0 }
    ensures bits { result.bits ≡ get_or figures.now (bits_at row) 0 }
    ensures blocks { result.blocks ≡ get_or figures.now (blocks_at row) 0 }
{
    Row {
        calls: figure(figures, calls_at(row)),
        bits: figure(figures, bits_at(row)),
        blocks: figure(figures, blocks_at(row)),
    }
}

// Two numbers, of which the second ends the line.
#[inline(always)]
fn put_pair<'a>(
    buffer: &'a mut [u8],
    at: usize,
    name: &'a [u8],
    n: u64,
    last: &'a [u8],
    m: u64,
) -> usize
    requires { Room buffer.old at ((name.now ++ digits n) ++ (last.now ++ (digits m ++ (lf ∷ [])))) }
    ensures { Put buffer.old at ((name.now ++ digits n) ++ (last.now ++ (digits m ++ (lf ∷ [])))) buffer.new result }
{
    let end = put_item(buffer, at, name, n);
    put_line(buffer, end, last, m)
}

// A slot and direction, with its share of all bits.
fn put_row(buffer: &mut [u8], at: usize, row: u64, sums: Row, all: u64) -> usize
    requires { (at + longest_row ≤ length buffer.old) × (row < 64) }
    ensures { (result ≤ at + longest_row) × Put buffer.old at (row_text (row / 2 + 1) (row % 2 + 1) sums.calls sums.bits sums.blocks all) buffer.new result }
{
    let direction = put_item(buffer, at, b"slot=", row / 2 + 1);
    let accepted = put_item(buffer, direction, b" dir=", row % 2 + 1);
    let ciphered = put_item(buffer, accepted, b" calls=", sums.calls);
    let used = put_item(buffer, ciphered, b" bits=", sums.bits);
    let share = put_item(buffer, used, b" blocks=", sums.blocks);
    let part = share_of(sums.bits, all);
    put_pair(buffer, share, b" share=", part.top, b"/", part.bottom)
}

// Each slot and direction.
fn put_rows<'a>(buffer: &'a mut [u8], at: usize, figures: &'a [u64]) -> usize
    requires { at + 64 * longest_row ≤ length buffer.old }
    ensures { (result ≤ at + 64 * longest_row) × Put buffer.old at (texts (row_in (sums_in figures.now)) 0 64) buffer.new result }
{
    let all = figure(figures, bits_at(TOTAL_ROW));
    let mut end = at;
    for row in 0..TOTAL_ROW {
        end = put_row(buffer, end, row as u64, row_at(figures, row), all);
    }
    end
}

// Each refusal number.
fn put_counts<'a>(buffer: &'a mut [u8], at: usize, figures: &'a [u64]) -> usize
    requires { at + 27 * longest_count ≤ length buffer.old }
    ensures { (result ≤ at + 27 * longest_count) × Put buffer.old at (texts (λ code. count_text code (get_or figures.now (195 + code) 0)) 1 27) buffer.new result }
{
    let mut end = at;
    for code in 1..28 {
        let count = figure(figures, count_at(code));
        end = put_pair(buffer, end, b"code=", code as u64, b" count=", count);
    }
    end
}

// All lines, and all accepted calls.
fn put_total(buffer: &mut [u8], at: usize, lines: u64, sums: Row) -> usize
    requires { at + longest_total ≤ length buffer.old }
    ensures { (result ≤ at + longest_total) × Put buffer.old at (total_text lines sums.calls sums.bits sums.blocks) buffer.new result }
{
    let accepted = put_item(buffer, at, b"lines=", lines);
    let ciphered = put_item(buffer, accepted, b" calls=", sums.calls);
    put_pair(
        buffer,
        ciphered,
        b" bits=",
        sums.bits,
        b" blocks=",
        sums.blocks,
    )
}

// The sheet: each slot and direction, then each refusal number, then all.
fn put_sheet<'a>(buffer: &'a mut [u8], figures: &'a [u64]) -> usize
    requires { sheet_room ≤ length buffer.old }
    ensures { (result ≤ sheet_room) × Put buffer.old 0 (sheet_text (sums_in figures.now)) buffer.new result }
{
    let counts = put_rows(buffer, 0, figures);
    let total = put_counts(buffer, counts, figures);
    put_total(
        buffer,
        total,
        figure(figures, LINES_AT),
        row_at(figures, TOTAL_ROW),
    )
}

// What is printed of a log that is read, at the front of the buffer, and its length. The bytes after it stay. A smaller buffer stays as it is, with length 0.
pub fn print<'a>(m: Month, figures: &'a [u64], buffer: &'a mut [u8]) -> usize
    ensures { (result ≡ printed_length (fed_to m figures.now) buffer.old)
        × (buffer.new ≡ printed_buffer (fed_to m figures.now) buffer.old) }
{
    if buffer.len() < ROOM {
        return 0;
    }
    let line = wrong_line(m);
    if line == 0 {
        return put_sheet(buffer, figures);
    }
    let refusal = u64::from(Refusal::LogLineBad.number());
    put_pair(buffer, 0, b"refused=", refusal, b" line=", line)
}

// The whole of a log at once: what is printed of it, at the front of the buffer, and its length.
#[unsafe(no_mangle)]
pub extern "C" fn month_of_log(log: &[u8], buffer: &mut [u8]) -> usize
    ensures { (result ≡ printed_length (whole_log log.now) buffer.old)
        × (buffer.new ≡ printed_buffer (whole_log log.now) buffer.old) }
{
    let mut figures = [0u64; FIGURES];
    let m = call_log::feed(call_log::start(), &mut figures, log);
    print(m, &figures, buffer)
}
