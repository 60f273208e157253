// The fields of a record: whether the record is well formed, and those of a step in words.
#![tactic(auto, using(text::proofs::Laws::pages))]

ghost use Rattle.std.specs.Prelude.{cond, not, ◌&&◌, ◌≡◌, eqb};
ghost use Rattle.model.specs.Members.{is_replica};
ghost use Rattle.model.specs.Records as R;
ghost use Rattle.records.specs.Record.{record_of};
ghost use Rattle.text.specs.Text.{HasRoom, Puts};
ghost use Rattle.phrases.specs.Line.{board_part, second_part};

use cluster::replica;
use records::{Record, boardless};
use text::Page;

// Whether b is what a step asks of its board.
fn board_fits(step: u8, b: u8) -> bool
    ensures { result ≡ cond (R.boardless step) (eqb b 0) (is_replica b) }
{
    if boardless(step) { b == 0 } else { replica(b) }
}

// Whether b is what a step of the board a asks of its second board. (Here and below steps are numbers, as in `Record`.)
fn other_fits(step: u8, a: u8, b: u8) -> bool
    ensures { result ≡ cond (eqb step 9) (is_replica b && not (eqb a b)) (eqb b 0) }
{
    if step == 9 {
        replica(b) && a != b
    } else {
        b == 0
    }
}

// Whether a record is well formed by itself.
pub fn is_well_formed(r: Record) -> bool
    ensures { result ≡ R.well_formed (record_of r) }
{
    r.step <= 15
        && board_fits(r.step, r.board)
        && other_fits(r.step, r.board, r.other)
        && r.spare == 0
        && (r.step == 1 || r.value == 0)
}

// Writes the board of a record, if its step names one. Inner layer: callers see to the room.
pub fn put_board(page: &mut Page<'_>, r: Record)
    requires { HasRoom page.old (board_part (record_of r)) }
    ensures { Puts page.old (board_part (record_of r)) page.new }
{
    if !boardless(r.step) {
        page.put_number(r.board as u32);
    }
}

// Writes the second number of a record, if its step has one. Inner layer: callers see to the room.
pub fn put_second(page: &mut Page<'_>, r: Record)
    requires { HasRoom page.old (second_part (record_of r)) }
    ensures { Puts page.old (second_part (record_of r)) page.new }
{
    match r.step {
        9 => page.put_number(r.other as u32),
        1 => page.put_number(r.value),
        _ => {}
    }
}
