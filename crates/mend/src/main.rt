// Mends a damaged record sheet: reads it from standard input, and writes the mended record with its changes, or the refusal, to standard output.
#![tactic(auto)]

use std::io;
use std::io::Write;

// One byte more than a sheet may have, so that a longer one is seen.
const BYTES: usize = 4097;

fn main(rt: HostRuntime) -> io::Result<()> {
    let mut text = [0u8; BYTES];
    let n = filling::read_full(&mut rt.stdin(), &mut text)?;
    let mut printed = [0u8; mending::ROOM];
    let length = mending::print(&text[..n], &mut printed);
    rt.stdout().write_all(&printed[..length])
}
