// Lists the keys of a sheet of records: reads up to 8,192 bytes from standard input, and writes the listing to standard output.
#![tactic(auto)]

use std::io;
use std::io::Write;

fn main(rt: HostRuntime) -> io::Result<()> {
    let mut sheet = [0u8; 8192];
    let n = filling::read_full(&mut rt.stdin(), &mut sheet)?;
    let mut listing = [0u8; sheet::ROOM];
    let length = sheet::list_sheet(&sheet[..n], &mut listing);
    rt.stdout().write_all(&listing[..length])
}
