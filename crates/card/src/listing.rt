// The listing of a sheet of records, for C.
ghost use Rattle.std.specs.Prelude.{◌≡◌};
ghost use Rattle.sheet.specs.Sheet.{listed_length, listed_buffer};

// Loads the records of a sheet into an empty table and leaves its listing, or the refusal's line alone, at the front of the buffer. Answers
// its length. The bytes after it stay; a buffer in which not every listing fits stays as it is, with the answer 0.
#[unsafe(no_mangle)]
pub extern "C" fn card_slotlist(sheet: &[u8], buf: &mut [u8]) -> usize
    ensures { (result ≡ listed_length sheet.now buf.old) × (buf.new ≡ listed_buffer sheet.now buf.old) }
{
    sheet::list_sheet(sheet, buf)
}
