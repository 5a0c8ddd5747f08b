// What the program `slotlist` prints, from the bytes of its input (document 01, "Key records").
#![tactic(auto)]

mod listing;

ghost use Rattle.std.specs.Prelude.{◌≡◌, ◌≤◌, length};
ghost use Rattle.writing.specs.Writing.{Put};
ghost use Rattle.sheet.specs.Sheet.{room, listing, listed_length, listed_buffer};

use listing::put_loaded;
use loading::load_all;

// Every listing fits a buffer of this many bytes.
pub const ROOM: usize = 2560;

// The listing, in a buffer that has room for it. Apart, so that a call whose buffer is smaller sets no memory first.
fn put_sheet(buffer: &mut [u8], sheet: &[u8]) -> usize
    requires { room ≤ length buffer.old }
    ensures { (result ≤ room) × Put buffer.old 0 (listing sheet.now) buffer.new result }
{
    put_loaded(buffer, load_all(sheet))
}

// The listing of a sheet, at the front of the buffer, and its length. The bytes after it stay. A smaller buffer stays as it is, with length 0.
pub fn list_sheet(sheet: &[u8], buffer: &mut [u8]) -> usize
    ensures { (result ≡ listed_length sheet.now buffer.old)
        × (buffer.new ≡ listed_buffer sheet.now buffer.old) }
{
    if buffer.len() < ROOM {
        return 0;
    }
    put_sheet(buffer, sheet)
}
