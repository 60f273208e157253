// The text of a sheet, a line in words for each record: the call behind the entry for the hub's firmware (crate row)
// and the program `explainsheet`.
#![tactic(auto)]

ghost use Rattle.std.specs.Prelude.{◌≡◌};
ghost use Rattle.explain.specs.Explain.{outcome_of, left, SampleHolds, RoomHolds, EmptyRefused, LengthsTell};

mod answered;

use answered::Answered;
use records::is_sheet;
use refusal::{Refusal, ensure};

// The papers' sample and P3 to P9 in words; a slice at its limits; the empty sheet is refused; a text of n records has
// 4 to 96 n bytes. By the definitions: nothing to run.
pub fn sample()
    ensures { SampleHolds × RoomHolds × EmptyRefused × LengthsTell }
{}

// Sheet in, a line for each record out. It returns the text's length; refusal 2 for a sheet of wrong length or without
// a valid opening, then 3 for a slice that is shorter than the text; both leave the slice untouched.
#[tactic(auto, unfolding(crate::specs::Explain::outcome_of, crate::specs::Explain::left))]
pub fn explain_sheet(sheet: &[u8], text: &mut [u8]) -> Result<usize, Refusal>
    ensures { (result ≡ outcome_of sheet.now text.old)
        × (text.new ≡ left sheet.now text.old) }
{
    ensure(is_sheet(sheet), Refusal::Sheet)?;
    let answers = running::answers(sheet);
    let answered = Answered {
        sheet,
        answers: &answers[..sheet.len() / 8],
    };
    answered.deliver(text)
}
