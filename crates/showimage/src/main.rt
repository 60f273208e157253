// Reads an image on standard input and prints the lines of its row, or `refused` and the number.
#![tactic(auto)]

use std::io;

// The longest image has 37,122 bytes: of a longer one so much is read that it is seen to be too long. The lines of a
// row have 20 to 8,650 bytes (`LengthsTell`, archive::sample), so refusal 3 does not happen here. This `main` stands in
// each of the six programs: one function of both lengths and the call would need a clause that the length handed back
// lies in the slice, and each program would still say its lengths, its call and that proof.
fn main(rt: HostRuntime) -> io::Result<()> {
    let mut image = [0u8; 37130];
    let mut text = [0u8; 8650];
    let mut scratch = [0u8; 576];
    let n = wholeinput::read_whole(&mut rt.stdin(), &mut image)?;
    match archive::show_image(&image[..n], &mut text, &mut scratch) {
        Ok(m) => rt.write_all(&text[..m]),
        Err(e) => println!(rt; "{e}"),
    }
}
