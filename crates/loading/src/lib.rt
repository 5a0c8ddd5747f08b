// A sheet's records, loaded into an empty table one after the other.
#![tactic(auto)]

ghost use Rattle.std.specs.Prelude.{◌≡◌};
ghost use Rattle.loading.specs.Answers.{loaded_of};
ghost use Rattle.loading.specs.Loading.{load_all};

use fields::Asked;
use record_reader::read_record;
use refusals::Refusal;
use slots::{Slot, empty_table};
use table_calls::load;

// The refusal of a record, its place in the sheet counted from 1, and where its text is wrong; line and column are 0 where the text reads.
#[derive(Clone, Copy, Debug, PartialEq, Eq)]
pub struct Refused {
    pub refusal: Refusal,
    pub position: usize,
    pub line: usize,
    pub column: usize,
}

// Every record of a sheet, up to the first that is refused.
pub fn load_all(sheet: &[u8]) -> Result<[Slot; 32], Refused>
    ensures { loaded_of result ≡ load_all sheet.now }
{
    let mut table = empty_table();
    let mut position = 1;
    // No `for`: how far a turn goes is what the record took.
    let mut rest = sheet;
    while !rest.is_empty() {
        let read = match read_record(rest) {
            Ok(read) => read,
            Err(bad) => {
                return Err(Refused {
                    refusal: Refusal::RecordTextBad,
                    position,
                    line: bad.line,
                    column: bad.column,
                });
            }
        };
        let used = read.used;
        let key = read.key;
        table = match load(table, read.number, Asked::from(read.fields), key) {
            Ok(loaded) => loaded,
            Err(refusal) => {
                return Err(Refused {
                    refusal,
                    position,
                    line: 0,
                    column: 0,
                });
            }
        };
        rest = &rest[used..];
        position += 1;
    }
    Ok(table)
}
