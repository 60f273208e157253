// Reads a sheet on standard input and prints a line in words for each record, or `refused` and the number.
#![tactic(auto)]

use std::io;

// The longest sheet has 32,760 bytes: of a longer one so much is read that it is seen to be too long. A line has at
// most 96 bytes (`LengthsTell`, explain::sample), so that 393,120 are enough for 4,095 of them, and refusal 3 does not
// happen here. This `main` stands in each of the six programs: one function of both lengths and the call would need a
// clause that the length handed back lies in the slice, and each program would still say its lengths, its call and that
// proof.
fn main(rt: HostRuntime) -> io::Result<()> {
    let mut sheet = [0u8; 32768];
    let mut text = [0u8; 393120];
    let n = wholeinput::read_whole(&mut rt.stdin(), &mut sheet)?;
    match explain::explain_sheet(&sheet[..n], &mut text) {
        Ok(m) => rt.write_all(&text[..m]),
        Err(e) => println!(rt; "{e}"),
    }
}
