// Takes a row up from an image and goes on with more records: bytes on standard input and output, for tools and tests.
// Input: 4 bytes, the image's length, low byte first; the image; then 0 to 4,095 records of 8 bytes (an opening among
// them is answered 1). Output: 0, or the number of the refusal and no more: 2 where the input is too short for its
// image or what follows is not so many whole records, else 17, 18 or 19 of the image. After 0 two bytes for each
// record, its answer and the set of the boards behind it, board 1 as the lowest bit; then the image of the row after
// them. There is none where refusal 1 turns that row away: a row that no run gives can become so.
#![tactic(auto)]

use cluster::Cluster;
use records::Record;
use refinement::{Lent, LentMut};
use refusal::{Refusal, ensure};
use std::io;

// The image and the records of an input; refusal 2 where they are not there.
fn parts(given: &[u8]) -> Result<(&[u8], &[u8]), Refusal> {
    ensure(given.len() >= 4, Refusal::Sheet)?;
    let n = fields::four_at(given, 0) as usize;
    ensure(n <= given.len() - 4, Refusal::Sheet)?;
    let end = n + 4;
    let records = &given[end..];
    ensure(
        records.len() % 8 == 0 && records.len() <= 32760,
        Refusal::Sheet,
    )?;
    Ok((&given[4..end], records))
}

// Writes one byte: the first of the output.
fn begin(rt: &impl Print, n: u8) -> io::Result<()> {
    rt.write_all(&[n])
}

// All records, one after the other: the row goes on, and of each its answer and the set behind it are written.
fn play(rt: &impl Print, row: &mut Cluster, p: &mut LentMut<'_>, records: &[u8]) -> io::Result<()> {
    for bytes in records.chunks_exact(8) {
        let two = match steps::step(row, p, Record::at(bytes, 0)) {
            Ok(behind) => [0, behind],
            Err(e) => [e.number(), 0],
        };
        rt.write_all(&two)?;
    }
    Ok(())
}

// Writes the image of a row, or nothing.
fn keep(rt: &impl Print, row: &Cluster, p: Lent<'_, '_>) -> io::Result<()> {
    let mut image = [0u8; 37122];
    match image::save(row, p, &mut image) {
        Ok(n) => rt.write_all(&image[..n]),
        Err(_) => Ok(()),
    }
}

// Takes the image up and goes on. After a power cut memory may hold anything: here every lent place holds what no entry
// may, and the scratch is all ones. The places are of this frame: no function can hand out places of its own.
fn go_on(rt: &impl Print, image: &[u8], records: &[u8]) -> io::Result<()> {
    let mut store = [4294967295u32; 4096];
    let mut store2 = [65535u16; 4096];
    let mut list = [4294967295u32; 512];
    let mut list2 = [65535u16; 512];
    let mut p = LentMut {
        store: &mut store,
        store2: &mut store2,
        list: &mut list,
        list2: &mut list2,
    };
    let mut scratch = [255u8; 576];
    let (mut row, _) = steps::opening(1);
    if let Err(e) = image::load(&mut row, image, &mut p, &mut scratch) {
        return begin(rt, e.number());
    }
    begin(rt, 0)?;
    play(rt, &mut row, &mut p, records)?;
    keep(rt, &row, p.lent())
}

// Takes the input apart.
fn resume(rt: &impl Print, given: &[u8]) -> io::Result<()> {
    match parts(given) {
        Ok((image, records)) => go_on(rt, image, records),
        Err(e) => begin(rt, e.number()),
    }
}

// An image has at most 37,122 bytes. Of an input that is longer than what is read here the image is too long or the
// records are too many, and it is refused.
fn main(rt: HostRuntime) -> io::Result<()> {
    let mut given = [0u8; 131072];
    let n = wholeinput::read_whole(&mut rt.stdin(), &mut given)?;
    resume(&rt, &given[..n])
}
