// The list that leads to normal, of a sheet's row and of an image's row (document 02, Paper 10): the calls behind two
// entries for the hub's firmware (crate row) and the programs `plansheet` and `planimage`.
#![tactic(auto)]

ghost use Rattle.std.specs.Prelude.{◌≡◌, ◌≤◌, length};
ghost use Rattle.model.specs.State.{entries};
ghost use Rattle.refinement.specs.Refinement.{abs};
ghost use Rattle.refinement.specs.Lent.{places_in};
ghost use Rattle.recovery.specs.Plan.{plan};
ghost use Rattle.pieces.specs.Fitting.{Fit};
ghost use Rattle.delivery.specs.Delivery.{plan_left};
ghost use Rattle.guiding.specs.Guiding.{plan_outcome, sheet_outcome, sheet_left, image_outcome, image_left, scratch_left, SheetsRecover, LengthsTell, ImagesAgree, SampleHolds};

use cluster::Cluster;
use refinement::LentMut;
use refusal::{Refusal, ensure};

// From every sheet whose run ends with the registry's epoch at most 3,998 the list leads to normal; a multiple of 8 is
// a list's length, and no refusal; an image has the list of the row that was written. By the definitions: nothing to
// run.
pub fn claim()
    ensures { SheetsRecover × LengthsTell × ImagesAgree }
{}

// The list of document 01's sample, of its sheet and of its image; the empty sheet is refused. By the definitions:
// nothing to run.
pub fn sample()
    ensures { SampleHolds }
{}

// Writes the list of a row, and hands back its length in bytes. Callers see to the row, the places and the room: a
// clause, since C lends a slice of any length, and both calls look at it first, for refusal 3.
fn give(row: &Cluster, p: LentMut<'_>, out: &mut [u8]) -> Result<usize, Refusal>
    requires fit { Fit row.now (places_in p) }
    requires room { 16512 ≤ length out.old }
    ensures result { result ≡ plan_outcome (plan entries (abs row.now (places_in p.entry))) }
    ensures list { out.new ≡ plan_left (plan entries (abs row.now (places_in p.entry))) out.old }
{
    let count = drafting::plan(row, p, &mut *out)?;
    Ok(8 * count)
}

// Runs a sheet and writes the records that lead its row to normal. It returns their length in bytes; refusal 2 for a
// sheet of wrong length or without a valid opening, then 3 for a slice shorter than 16,512 bytes, then 20 where there
// is no list: these leave the slice untouched.
pub fn plan_sheet(sheet: &[u8], out: &mut [u8]) -> Result<usize, Refusal>
    ensures result { result ≡ sheet_outcome sheet.now out.old }
    ensures list { out.new ≡ sheet_left sheet.now out.old }
{
    ensure(records::is_sheet(sheet), Refusal::Sheet)?;
    ensure(16512 <= out.len(), Refusal::Room)?;
    // The places are of this frame: no function can hand out references to its own, and handing them out by value would
    // copy 27,648 bytes.
    let mut p = LentMut {
        store: &mut [0; 4096],
        store2: &mut [0; 4096],
        list: &mut [0; 512],
        list2: &mut [0; 512],
    };
    let row = running::play(sheet, &mut p, &mut [0; 4096], &mut [0; 4096]);
    refinement::typed(row);
    give(&row, p, &mut *out)
}

// Takes up an image and writes the records that lead its row to normal. It returns their length in bytes; refusal 3 for
// a slice shorter than 16,512 bytes or a scratch that is too short, then 17, 18 or 19 for the image, then 20 where
// there is no list: the slice is untouched then. Past 3 the scratch ends as zeros.
pub fn plan_image(image: &[u8], out: &mut [u8], scratch: &mut [u8]) -> Result<usize, Refusal>
    ensures result { result ≡ image_outcome image.now out.old scratch.old }
    ensures list { out.new ≡ image_left image.now out.old scratch.old }
    ensures scratch { scratch.new ≡ scratch_left out.old scratch.old }
{
    ensure(16512 <= out.len(), Refusal::Room)?;
    // The places are of this frame: no function can hand out references to its own, and handing them out by value would
    // copy 27,648 bytes.
    let mut p = LentMut {
        store: &mut [0; 4096],
        store2: &mut [0; 4096],
        list: &mut [0; 512],
        list2: &mut [0; 512],
    };
    let (opened, _) = steps::opening(1);
    let mut taken = opened;
    image::load(&mut taken, image, &mut p, &mut *scratch)?;
    refinement::typed(taken);
    give(&taken, p, &mut *out)
}
