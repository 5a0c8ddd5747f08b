// Writers of a listing's parts. Each puts a text into the buffer from a place on, and answers with the place at which it ends.
ghost use Rattle.std.specs.Prelude.{◌≡◌, ◌≤◌, length};
ghost use Rattle.writing.specs.Writing.{Put};
ghost use Rattle.refusals.specs.Refused.{number};
ghost use Rattle.loading.specs.Answers.{loaded_of};
ghost use Rattle.sheet.specs.Sheet.{filled_count, table_text, refusal_text, loaded_text, room};

use loading::Refused;
use slot_lines::put_slots;
use slots::{Slot, is_filled};
use writing::{put_item, put_line};

fn count_filled(table: [Slot; 32]) -> u64
    ensures { result ≡ filled_count table }
{
    table.iter().filter(|slot| is_filled(**slot)).count() as u64
}

fn put_table(buffer: &mut [u8], table: [Slot; 32]) -> usize
    requires { room ≤ length buffer.old }
    ensures { (result ≤ room) × Put buffer.old 0 (table_text table) buffer.new result }
{
    let count = count_filled(table);
    let slots = put_line(buffer, 0, b"table=", 32);
    let last = put_slots(buffer, slots, table);
    put_line(buffer, last, b"filled=", count)
}

fn put_refusal(buffer: &mut [u8], refused: Refused) -> usize
    requires { room ≤ length buffer.old }
    ensures { (result ≤ room) × Put buffer.old 0 (refusal_text (number refused.refusal) refused.position refused.line refused.column) buffer.new result }
{
    let number = refused.refusal.number() as u64;
    let record = put_item(buffer, 0, b"refused=", number);
    let place = put_item(buffer, record, b" record=", refused.position as u64);
    let last = put_item(buffer, place, b" line=", refused.line as u64);
    put_line(buffer, last, b" column=", refused.column as u64)
}

// The table, or only the refusal.
pub fn put_loaded(buffer: &mut [u8], loaded: Result<[Slot; 32], Refused>) -> usize
    requires { room ≤ length buffer.old }
    ensures { (result ≤ room) × Put buffer.old 0 (loaded_text (loaded_of loaded)) buffer.new result }
{
    match loaded {
        Ok(table) => put_table(buffer, table),
        Err(refused) => put_refusal(buffer, refused),
    }
}
