// Checks a conversion of records: reads before records, an empty line, after records, an empty line and the pairs from standard input, and writes
// the number of pairs, or the refusal, to standard output. One byte more than the longest input is read, so that a longer one is seen.
#![tactic(auto)]

use std::io;
use std::io::Write;

fn main(rt: HostRuntime) -> io::Result<()> {
    let mut input = [0u8; 16385];
    let n = filling::read_full(&mut rt.stdin(), &mut input)?;
    let report = conversion_sheet::report_on(&input[..n]);
    rt.stdout().write_all(&report.text[..report.length])
}
