// Reads an image on standard input and writes the records that lead its row to normal, or prints `refused` and the
// number.
#![tactic(auto)]

use std::io;

// The longest image has 37,122 bytes: of a longer one so much is read that it is seen to be too long. Slice and scratch
// have their room, so refusal 3 does not happen here. This `main` stands in each of the six programs: one function of
// both lengths and the call would need a clause that the length handed back lies in the slice, and each program would
// still say its lengths, its call and that proof.
fn main(rt: HostRuntime) -> io::Result<()> {
    let mut image = [0u8; 37130];
    let mut list = [0u8; 16512];
    let mut scratch = [0u8; 576];
    let n = wholeinput::read_whole(&mut rt.stdin(), &mut image)?;
    match guiding::plan_image(&image[..n], &mut list, &mut scratch) {
        Ok(m) => rt.write_all(&list[..m]),
        Err(e) => println!(rt; "{e}"),
    }
}
