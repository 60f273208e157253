// A sheet's row as an image, and an image's row as lines: the calls behind two entries for the hub's firmware (crate
// row) and the programs `savesheet` and `showimage`.
#![tactic(auto)]

ghost use Rattle.std.specs.Prelude.{◌≡◌, true};
ghost use Rattle.refinement.specs.Refinement.{Full};
ghost use Rattle.refinement.specs.Lent.{places_in};
ghost use Rattle.records.specs.Bytes.{is_sheet};
ghost use Rattle.archive.specs.Archive.{save_outcome, save_left, show_outcome, show_left, scratch_left, SampleHolds, EmptyRefused, LengthsTell};

use refinement::LentMut;
use refusal::{Refusal, ensure};
use text::Page;

// The image of document 01's sample, byte for byte, its lines, and bent images with their errors; the empty sheet is
// refused; an image has 258 to 37,122 bytes, its lines 20 to 8,650. By the definitions: nothing to run.
pub fn sample()
    ensures { SampleHolds × EmptyRefused × LengthsTell }
{}

// Runs a sheet in lent places and writes the image of its row. (That it is a sheet stays a clause, as in `running`.)
fn save_run(sheet: &[u8], p: &mut LentMut<'_>, out: &mut [u8]) -> Result<usize, Refusal>
    requires sheet { is_sheet sheet.now ≡ true }
    requires places { Full (places_in p.old) }
    ensures result { result ≡ save_outcome sheet.now out.old }
    ensures image { out.new ≡ save_left sheet.now out.old }
{
    let row = running::play(sheet, p, &mut [0; 4096], &mut [0; 4096]);
    image::save(&row, p.lent(), out)
}

// Runs a sheet and writes the image of its row. It returns the image's length; refusal 2 for a sheet of wrong length or
// without a valid opening, then 3 for a slice that is shorter than the image: both leave the slice untouched.
// Not inlined into the entry for C: there clang 22 kept a value in r11 over its probe of the stack, which writes r11.
#[inline(never)]
pub fn save_sheet(sheet: &[u8], out: &mut [u8]) -> Result<usize, Refusal>
    ensures result { result ≡ save_outcome sheet.now out.old }
    ensures image { out.new ≡ save_left sheet.now out.old }
{
    ensure(records::is_sheet(sheet), Refusal::Sheet)?;
    // The places are of this frame: no function can hand out references to its own, and handing them out by value would
    // copy 27,648 bytes.
    let mut p = LentMut {
        store: &mut [0; 4096],
        store2: &mut [0; 4096],
        list: &mut [0; 512],
        list2: &mut [0; 512],
    };
    save_run(sheet, &mut p, out)
}

// Takes up an image and writes the lines of its row that a listing has after the answers. It returns their length;
// refusal 3 for a scratch that is too short, 17, 18 or 19 for the image, then 3 for a slice that is shorter than the
// lines: the slice is untouched then. Past the first of these the scratch ends as zeros.
pub fn show_image(image: &[u8], out: &mut [u8], scratch: &mut [u8]) -> Result<usize, Refusal>
    ensures result { result ≡ show_outcome image.now out.old scratch.old }
    ensures text { out.new ≡ show_left image.now out.old scratch.old }
    ensures scratch { scratch.new ≡ scratch_left scratch.old }
{
    // The places are of this frame: no function can hand out references to its own, and handing them out by value would
    // copy 27,648 bytes.
    let mut p = LentMut {
        store: &mut [0; 4096],
        store2: &mut [0; 4096],
        list: &mut [0; 512],
        list2: &mut [0; 512],
    };
    let (mut row, _) = steps::opening(1);
    let taken = image::load(&mut row, image, &mut p, scratch); // Named for the edits of this test.
    taken?;
    let list = p.list;
    let list2 = p.list2;
    let mut end = [0; 8704];
    let mut page = Page::new(&mut end);
    ending::put_ending(&mut page, &row, list, list2);
    let n = page.at;
    text::deliver(&page.out[..n], out)
}
