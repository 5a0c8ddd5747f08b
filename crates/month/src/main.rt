// The month sheet of a call log: reads the log from standard input, a block at a time, and writes its sheet, or the first line that is wrong, to standard output.
#![tactic(auto)]

use call_log::Month;
use std::io;
use std::io::{Read, Write};

const BLOCK: usize = 65536;

// Reads to the end of the input, or until a line is wrong. The blocks' count only bounds the loop: a log that long is wrong much earlier.
fn read_log<R: Read>(reader: &mut R, figures: &mut [u64]) -> io::Result<Month> {
    let mut m = call_log::start();
    for _ in 0..u64::MAX {
        let mut block = [0u8; BLOCK];
        let n = filling::read_full(reader, &mut block)?;
        m = call_log::feed(m, figures, &block[..n]);
        if n < BLOCK || !m.good {
            break;
        }
    }
    Ok(m)
}

fn main(rt: HostRuntime) -> io::Result<()> {
    let mut figures = [0u64; call_log::FIGURES];
    let m = read_log(&mut rt.stdin(), &mut figures)?;
    let mut sheet = [0u8; month_sheet::ROOM];
    let length = month_sheet::print(m, &figures, &mut sheet);
    rt.stdout().write_all(&sheet[..length])
}
