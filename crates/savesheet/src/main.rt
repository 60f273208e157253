// Reads a sheet on standard input and writes the image of its row, or prints `refused` and the number.
#![tactic(auto)]

use std::io;

// The longest sheet has 32,760 bytes: of a longer one so much is read that it is seen to be too long. An image has 258
// to 37,122 bytes (`LengthsTell`, archive::sample), so refusal 3 does not happen here. This `main` stands in each of
// the six programs: one function of both lengths and the call would need a clause that the length handed back lies in
// the slice, and each program would still say its lengths, its call and that proof.
fn main(rt: HostRuntime) -> io::Result<()> {
    let mut sheet = [0u8; 32768];
    let mut image = [0u8; 37122];
    let n = wholeinput::read_whole(&mut rt.stdin(), &mut sheet)?;
    match archive::save_sheet(&sheet[..n], &mut image) {
        Ok(m) => rt.write_all(&image[..m]),
        Err(e) => println!(rt; "{e}"),
    }
}
