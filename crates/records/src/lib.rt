// A record of a sheet: its bytes, the check of its unused fields; and refusal 2 of a sheet.
#![tactic(auto)]

ghost use Rattle.std.specs.Prelude.{◌≡◌, ◌+◌, ◌≤◌, length, drop};
ghost use Rattle.text.specs.Text.{HasRoom, Puts};
ghost use Rattle.model.specs.Records as R;
ghost use Rattle.records.specs.Record.{record_of, Uses};
ghost use Rattle.records.specs.Bytes.{record_at, record_bytes, whole_records, is_opening, is_sheet};

use refusal::{Refusal, ensure};
use text::Page;

// A record of a sheet: its step, its board (a in step 9), b in step 9, a spare byte, the value. The step stays a number:
// a sheet may hold any, and document 01 has one match on it, with ranges, which is in dispatch.
#[derive(Clone, Copy, Debug, Default, PartialEq, Eq)]
pub struct Record {
    pub step: u8,
    pub board: u8,
    pub other: u8,
    pub spare: u8,
    pub value: u32,
}

impl From<[u8; 8]> for Record {
    ghost from_gives = { λ b r. record_of r ≡ record_at b };

    fn from(b: [u8; 8]) -> Record {
        let [step, board, other, spare, v0, v1, v2, v3] = b;
        Record {
            step,
            board,
            other,
            spare,
            value: u32::from_le_bytes([v0, v1, v2, v3]),
        }
    }
}

impl From<Record> for [u8; 8] {
    ghost from_gives = { λ r b. b ≡ record_bytes (record_of r) };

    #[tactic(auto, unfolding(crate::specs::Bytes::record_bytes))]
    fn from(r: Record) -> [u8; 8] {
        let [v0, v1, v2, v3] = r.value.to_le_bytes();
        [r.step, r.board, r.other, r.spare, v0, v1, v2, v3]
    }
}

impl Record {
    // The record of a step and a board; a record of no board has 0 there.
    pub fn of(step: u8, board: u8) -> Record
        ensures { record_of result ≡ R.of step board }
    {
        Record {
            step,
            board,
            ..Record::default()
        }
    }

    // The record at place at of a sheet. Inner layer: callers see to it that it is whole.
    pub fn at(sheet: &[u8], at: usize) -> Record
        requires { at + 8 ≤ length sheet.now }
        ensures { record_of result ≡ record_at (drop at sheet.now) }
    {
        let bytes: [u8; 8] = std::array::from_fn(|i| sheet[at + i]);
        bytes.into()
    }

    // The field checks. Each hands out the fields that a step uses, or refusal 1 if one that it does not use is not 0.
    pub fn bare(self) -> Result<(), Refusal>
        ensures { Uses (λ st. R.uses_nothing (record_of self) (st tt)) result }
    {
        ensure(
            self.board == 0 && self.other == 0 && self.spare == 0 && self.value == 0,
            Refusal::Invalid,
        )
    }

    pub fn one_board(self) -> Result<u8, Refusal>
        ensures { Uses (R.uses_board (record_of self)) result }
    {
        ensure(
            self.other == 0 && self.spare == 0 && self.value == 0,
            Refusal::Invalid,
        )?;
        Ok(self.board)
    }

    pub fn two_boards(self) -> Result<(u8, u8), Refusal>
        ensures { Uses (λ st. R.uses_boards (record_of self) (λ a b. st (a, b))) result }
    {
        ensure(self.spare == 0 && self.value == 0, Refusal::Invalid)?;
        Ok((self.board, self.other))
    }

    pub fn board_and_value(self) -> Result<(u8, u32), Refusal>
        ensures { Uses (λ st. R.uses_value (record_of self) (λ b v. st (b, v))) result }
    {
        ensure(self.other == 0 && self.spare == 0, Refusal::Invalid)?;
        Ok((self.board, self.value))
    }

    // Writes its eight bytes. Inner layer: callers see to the room.
    #[tactic(auto, using(text::proofs::Laws::pages))]
    pub fn put(self, page: &mut Page<'_>)
        requires { HasRoom page.old (record_bytes (record_of self)) }
        ensures { Puts page.old (record_bytes (record_of self)) page.new }
    {
        let bytes: [u8; 8] = self.into();
        page.put_bytes(&bytes);
    }

    // Whether it is the opening.
    fn opens(self) -> bool
        ensures { result ≡ is_opening (record_of self) }
    {
        self.step == 0
            && cluster::replica(self.board)
            && self.other == 0
            && self.spare == 0
            && self.value == 0
    }
}

// Whether a step names no board.
pub fn boardless(step: u8) -> bool
    ensures { result ≡ R.boardless step }
{
    matches!(step, 5 | 10 | 11 | 13)
}

// Whether n bytes are whole records, 1 to 4,095 of them.
fn whole(n: usize) -> bool
    ensures { result ≡ whole_records n }
{
    n % 8 == 0 && 1 <= n / 8 && n / 8 <= 4095
}

// Whether document 01's refusal 2 lets a sheet through.
pub fn is_sheet(sheet: &[u8]) -> bool
    ensures { result ≡ is_sheet sheet.now }
{
    whole(sheet.len()) && Record::at(sheet, 0).opens()
}
