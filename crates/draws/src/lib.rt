// The draws of a seed, and the records that are drawn: the opening, and each later one by itself.
#![tactic(auto)]

ghost use Rattle.std.specs.Prelude.{◌≡◌, ◌+◌, ◌%◌, ◌≤◌};
ghost use Rattle.model.specs.Records.{of};
ghost use Rattle.draws.specs.Draws.{advance, draw, board_from, second_board, drawn, draw_record};
ghost use Rattle.records.specs.Record.{record_of};

use records::{Record, boardless};

// The generator, after its last draw.
#[derive(Clone, Copy, Debug, PartialEq, Eq)]
pub struct Draws {
    pub state: u32,
}

impl Draws {
    // Advances the state and draws from it. The draw is not fed back into the state.
    #[tactic(auto, using(crate::proofs::Drawing::low_first), unfolding(crate::specs::Draws::advance))]
    fn next(&mut self) -> u32
        ensures state { self.new.state ≡ advance self.old.state }
        ensures drawn { result ≡ draw self.new.state }
    {
        self.state = self.state.wrapping_add(2654435769);
        let t = self.state ^ (self.state >> 16);
        t ^ (t << 7)
    }

    // Draws a number, 1 to n.
    fn next_of(&mut self, n: u8) -> u8
        requires { 1 ≤ n }
        ensures state { self.new.state ≡ advance self.old.state }
        ensures drawn { result ≡ 1 + draw self.new.state % n }
    {
        1 + (self.next() % n as u32) as u8
    }

    // Draws the opening.
    pub fn next_opening(&mut self) -> Record
        ensures { drawn (record_of result) self.new.state
            ≡ drawn (of 0 (board_from (advance self.old.state))) (advance self.old.state) }
    {
        Record {
            board: self.next_of(8),
            ..Record::default()
        }
    }

    // Draws a record after the opening. A field that the step does not use is 0 and takes no draw. (Steps are numbers,
    // as in `Record`.)
    #[tactic(auto, unfolding(crate::specs::Draws::draw_record))]
    pub fn next_record(&mut self) -> Record
        ensures { drawn (record_of result) self.new.state ≡ draw_record self.old.state }
    {
        let mut r = Record {
            step: self.next_of(15),
            ..Record::default()
        };
        if boardless(r.step) {
            return r;
        }
        r.board = self.next_of(8);
        match r.step {
            9 => r.other = second_board(r.board, self.next_of(8)),
            1 => r.value = self.next(),
            _ => {}
        }
        r
    }
}

// The second board: b, or the next number where b is the first board a.
fn second_board(a: u8, b: u8) -> u8
    requires { b ≤ 8 }
    ensures { result ≡ second_board a b }
{
    match b {
        _ if b != a => b,
        8 => 1,
        _ => b + 1,
    }
}
