// The entries for the hub's firmware in C, all in this one crate: an archive exports the marked functions of its own
// crate alone. Each is one call of a proved function, with the same promise. include/row.h declares them.
#![tactic(auto)]

ghost use Rattle.std.specs.Prelude.{◌≡◌};
ghost use Rattle.sheet.specs.Sheet as Sheet;
ghost use Rattle.explain.specs.Explain as Explain;
ghost use Rattle.phrases.specs.Describe as Describe;
ghost use Rattle.generator.specs.Seeded as Seeded;
ghost use Rattle.model.specs.Members as Members;
ghost use Rattle.members.specs.Mask.{bits};
ghost use Rattle.archive.specs.Archive as Archive;
ghost use Rattle.guiding.specs.Guiding as Guiding;

use refusal::returned;

// Sheet in, listing out: the listing's length, 2 for a sheet of wrong length or without a valid opening, 3 for a slice
// that is shorter than the listing; the empty sheet has a listing, of one line (document 02, Paper 9).
#[unsafe(no_mangle)]
pub extern "C" fn run_sheet(sheet: &[u8], listing: &mut [u8]) -> usize
    ensures { (result ≡ Sheet.result_of sheet.now listing.old)
        × (listing.new ≡ Sheet.left sheet.now listing.old) }
{
    returned(sheet::run_sheet(sheet, listing))
}

// Writes the sheet of a seed and a count of records, the opening included: the sheet's length, 2 for a count outside 1
// to 4,095, then 3 for a slice that is shorter than the sheet; both leave the slice untouched.
#[unsafe(no_mangle)]
pub extern "C" fn seed_sheet(seed: u32, count: usize, sheet: &mut [u8]) -> usize
    ensures { (result ≡ Seeded.result_of seed count sheet.old)
        × (sheet.new ≡ Seeded.left seed count sheet.old) }
{
    returned(generator::seed_sheet(seed, count, &mut *sheet))
}

// How many boards make a majority of a set, by its mask, board 1 the lowest bit: the number that docs/MAJORITY.md
// prints for the set, 1 for the empty one.
#[unsafe(no_mangle)]
pub extern "C" fn look_up_majority(set: u8) -> u8
    ensures { result ≡ Members.quorum (Members.size (bits set)) }
{
    members::majority(set)
}

// Sheet in, a line in words for each record out, with the answer that its run gave: the text's length, 2 for a sheet of
// wrong length or without a valid opening, then 3 for a slice that is shorter than the text; both leave the slice
// untouched.
#[unsafe(no_mangle)]
pub extern "C" fn explain_sheet(sheet: &[u8], text: &mut [u8]) -> usize
    ensures { (result ≡ Explain.result_of sheet.now text.old)
        × (text.new ≡ Explain.left sheet.now text.old) }
{
    returned(explain::explain_sheet(sheet, &mut *text))
}

// One line in words of a record and its answer: the line's length, 1 for a record that is not 8 bytes long or an answer
// that is not on the list, then 3 for a slice that is shorter than the line; both leave the slice untouched.
#[unsafe(no_mangle)]
pub extern "C" fn describe_record(bytes: &[u8], answer: usize, line: &mut [u8]) -> usize
    ensures { (result ≡ Describe.result_of bytes.now answer line.old)
        × (line.new ≡ Describe.left bytes.now answer line.old) }
{
    returned(describe::describe_record(bytes, answer, &mut *line))
}

// Sheet in, the image of its row out (document 02, Paper 7): the image's length, 2 for a sheet of wrong length or without
// a valid opening, then 3 for a slice that is shorter than the image; both leave the slice untouched.
#[unsafe(no_mangle)]
pub extern "C" fn save_sheet(sheet: &[u8], image: &mut [u8]) -> usize
    ensures { (result ≡ Archive.save_result sheet.now image.old)
        × (image.new ≡ Archive.save_left sheet.now image.old) }
{
    returned(archive::save_sheet(sheet, image))
}

// Image in, the lines of its row out: their length, 3 for a scratch that is too short, 17, 18 or 19 for the image, then
// 3 for a slice that is shorter than the lines; all leave the slice untouched. Past the first of these the whole scratch
// ends as zeros.
#[unsafe(no_mangle)]
pub extern "C" fn show_image(image: &[u8], text: &mut [u8], scratch: &mut [u8]) -> usize
    ensures { (result ≡ Archive.show_result image.now text.old scratch.old)
        × (text.new ≡ Archive.show_left image.now text.old scratch.old)
        × (scratch.new ≡ Archive.scratch_left scratch.old) }
{
    returned(archive::show_image(image, text, scratch))
}

// Sheet in, the records that lead its row to normal out (document 02, Paper 10): their length in bytes, a multiple of 8,
// 2 for a sheet of wrong length or without a valid opening, then 3 for a slice shorter than 16,512 bytes, then 20 where
// there is no such list; each refusal leaves the slice untouched.
#[tactic(auto, unfolding(guiding::specs::Guiding::sheet_result))]
#[unsafe(no_mangle)]
pub extern "C" fn plan_sheet(sheet: &[u8], list: &mut [u8]) -> usize
    ensures { (result ≡ Guiding.sheet_result sheet.now list.old)
        × (list.new ≡ Guiding.sheet_left sheet.now list.old) }
{
    returned(guiding::plan_sheet(sheet, list))
}

// Image in, the records that lead its row to normal out: their length in bytes, a multiple of 8, 3 for a slice shorter
// than 16,512 bytes or a scratch that is too short, 17, 18 or 19 for the image, then 20 where there is no such list; each
// refusal leaves the slice untouched. Past 3 the whole scratch ends as zeros.
#[tactic(auto, unfolding(guiding::specs::Guiding::image_result))]
#[unsafe(no_mangle)]
pub extern "C" fn plan_image(image: &[u8], list: &mut [u8], scratch: &mut [u8]) -> usize
    ensures { (result ≡ Guiding.image_result image.now list.old scratch.old)
        × (list.new ≡ Guiding.image_left image.now list.old scratch.old)
        × (scratch.new ≡ Guiding.scratch_left list.old scratch.old) }
{
    returned(guiding::plan_image(image, list, scratch))
}
