// A sheet and its listing: the call behind the entry for the hub's firmware (crate row) and the program `runsheet`.
#![tactic(auto)]

ghost use Rattle.std.specs.Prelude.{◌≡◌};
ghost use Rattle.model.specs.Trials.{TrialsHold};
ghost use Rattle.sheet.specs.Sheet.{SampleHolds, SetsHold, RoomHolds, RefusedHolds, UnopenedHolds, LengthsTell, outcome_of, left};

use listing::Listed;
use refinement::LentMut;
use refusal::{Refusal, ensure};
use text::Page;

// The papers' sample sheet has the papers' listing, byte for byte, a sheet with large sets its own, and the empty one
// its line; short slices, bad openings and all other wrong lengths are refused; a listing of n records has at most
// 19 n + 8,650 bytes, and at least 10, or 9 where there are none. By the definitions: nothing to run.
pub fn sample()
    ensures { SampleHolds × SetsHold × RoomHolds × RefusedHolds × UnopenedHolds × LengthsTell × TrialsHold }
{}

// Sheet in, listing out. It returns the listing's length; refusal 2 for a sheet of wrong length or without a valid
// opening, 3 for a slice that is shorter than the listing; the empty sheet has a listing, of one line. Nothing is
// written before both are decided: the sheet is run in places of this call's own, and the ending, whose length is then
// known, is written aside.
pub fn run_sheet(sheet: &[u8], listing: &mut [u8]) -> Result<usize, Refusal>
    ensures result { result ≡ outcome_of sheet.now listing.old }
    ensures text { listing.new ≡ left sheet.now listing.old }
{
    let empty = sheet.len() == 0; // Named for the edits of this test.
    if empty {
        return unopened::deliver(listing);
    }
    ensure(records::is_sheet(sheet), Refusal::Sheet)?;
    let mut answers = [0; 4096];
    let mut sets = [0; 4096];
    // The places are of this frame: no function can hand out places of its own, and handing them out by value would
    // copy 27,648 bytes.
    let mut p = LentMut {
        store: &mut [0; 4096],
        store2: &mut [0; 4096],
        list: &mut [0; 512],
        list2: &mut [0; 512],
    };
    let row = running::play(sheet, &mut p, &mut answers, &mut sets);
    let list = p.list;
    let list2 = p.list2;
    let mut end = [0; 8704];
    let mut page = Page::new(&mut end);
    ending::put_ending(&mut page, &row, list, list2);
    let n = page.at;
    let listed = Listed {
        sheet,
        answers: &answers,
        sets: &sets,
    };
    listed.deliver(&page.out[..n], listing)
}
