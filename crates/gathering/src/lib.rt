// A text of records, gathered by number and not loaded: a record of any algorithm is taken (document 02, [11]).
#![tactic(auto)]

ghost use Rattle.std.specs.Prelude.{◌≡◌, true, Ok};
ghost use Rattle.gathering.specs.Gathering.{gathered_of, entered, gathered};
ghost use Rattle.record_reader.specs.Record.{read_of};
ghost use Rattle.fields.specs.Fields.{is_slot_number};

use record_reader::{Record, read_record};
use slots::{Slot, empty_table, is_filled, with_slot};
use table_calls::slot_or_empty;

// One record more, in the slot of its number; none where it repeats a number.
#[tactic(auto, unfolding(crate::specs::Gathering::entered))]
fn enter(table: [Slot; 32], read: Record) -> Option<[Slot; 32]>
    requires { is_slot_number read.number ≡ true }
    ensures { gathered_of result ≡ entered table (read_of (Ok read)) }
{
    if is_filled(slot_or_empty(table, read.number)) {
        return None;
    }
    let fields = read.fields;
    let key = read.key;
    Some(with_slot(table, read.number, Slot { fields, key }))
}

// Every record of a text in the slot of its number; none where one does not read, or repeats a number.
pub fn gather(text: &[u8]) -> Option<[Slot; 32]>
    ensures { gathered_of result ≡ gathered text.now }
{
    let mut table = empty_table();
    // No `for`: how far a turn goes is what the record took.
    let mut rest = text;
    while !rest.is_empty() {
        let read = match read_record(rest) {
            Ok(read) => read,
            Err(_) => return None,
        };
        let used = read.used;
        table = enter(table, read)?;
        rest = &rest[used..];
    }
    Some(table)
}
