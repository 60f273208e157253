// Reads a seed and a count of records on standard input and writes their sheet, or `refused 2`.
#![tactic(auto)]

use std::io;

// 17 bytes of the input show what it asks for (`LinesSeen`, seedline::claim): no good line is longer than 16, and one
// byte more shows that an input is too long. The longest sheet has 32,760 bytes.
fn main(rt: HostRuntime) -> io::Result<()> {
    let mut line = [0u8; 17];
    let mut out = [0u8; 32760];
    let n = wholeinput::read_whole(&mut rt.stdin(), &mut line)?;
    let m = seedline::answer(&line[..n], &mut out);
    rt.write_all(&out[..m])
}
