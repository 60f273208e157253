// A program's input, read into a place of fixed size.
#![tactic(auto)]

ghost use Rattle.std.specs.Prelude.{◌≡◌, ◌<◌, length, take, IfOk};
ghost use Rattle.std.specs.Io.{ReadsAtMost};
ghost use Rattle.std.specs.Io.KnownBytes.{Consumes, IsAtEnd};

use std::io;
use std::io::Read;

// Reads until `place` is full or the input ends, and returns how many bytes it put at the front: those that the input
// gave, and it stops short only at the input's end. A read that fails ends it with that error. By hand: of the
// library's reads into a slice one stops early and one fails at the input's end, and others need a heap.
pub fn read_whole<R: Read>(input: &mut R, place: &mut [u8]) -> io::Result<usize>
    ensures bound { ReadsAtMost result place.new }
    ensures bytes { IfOk result (λ n. Consumes (R.remaining input.old) (R.remaining input.new) (take n place.new)) }
    ensures end { IfOk result (λ n. n < length place.new → IsAtEnd (R.remaining input.new)) }
{
    let mut done = 0;
    while done < place.len() {
        let n = input.read(&mut place[done..])?;
        if n == 0 {
            break;
        }
        done += n;
    }
    Ok(done)
}
