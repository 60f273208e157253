// The input of the program `seedsheet`: a line with a seed and a count; and what the program prints.
#![tactic(auto, using(text::proofs::Laws::pages))]

ghost use Rattle.std.specs.Prelude.{◌*◌, ◌≤◌, length};
ghost use Rattle.text.specs.Text.{HasRoom, Puts};
ghost use Rattle.seedline.specs.Line.{seed_line, Read, Prints, LinesDiffer, LinesSeen, LinesLook, OthersRefused};

use generator::{is_count, seed_sheet};
use reading::number_at;
use text::Page;

// Writes the line of a seed and a count.
#[tactic(auto, using(text::proofs::Laws::pages), unfolding(crate::specs::Line::seed_line))]
fn put_line(page: &mut Page<'_>, seed: u32, count: u32)
    requires { HasRoom page.old (seed_line seed count) }
    ensures { Puts page.old (seed_line seed count) page.new }
{
    page.put_field(seed);
    page.put_number(count);
    page.put_byte(b'\n');
}

// The seed and the count of records for which an input asks. The numbers are read with no regard to form; the line that
// they make is then compared with the input, so that nothing but that line is taken.
#[tactic(auto, using(text::proofs::Laws::pages, crate::proofs::Line::asked))]
pub fn read(input: &[u8]) -> Option<(u32, u32)>
    ensures { Read result input.now }
{
    if input.len() > 16 {
        return None;
    }
    let seed = number_at(input, 0);
    if seed.end >= input.len() {
        return None;
    }
    let count = number_at(input, seed.end + 1);
    let seed = u32::try_from(seed.value).ok()?;
    let count = u32::try_from(count.value).ok()?;
    if !is_count(count as usize) {
        return None;
    }
    let mut line = [0u8; 16];
    let mut page = Page::new(&mut line);
    put_line(&mut page, seed, count);
    let end = page.at;
    let same = input == &line[..end];
    if same { Some((seed, count)) } else { None }
}

// Writes what the program prints for an input: the sheet that it asks for, or `refused 2`. (As bytes: `Prints` has them
// in the lent slice, and `Display` of a refusal has no contract that tells them.) Inner layer: callers see to it that
// out has room for the longest sheet.
pub fn answer(input: &[u8], out: &mut [u8]) -> usize
    requires { 8 * 4095 ≤ length out.old }
    ensures { Prints input.now out.old out.new result }
{
    let Some((seed, count)) = read(input) else {
        let mut page = Page::new(out);
        page.put_bytes(b"refused 2\n");
        return page.at;
    };
    seed_sheet(seed, count as usize, out).unwrap()
}

// What is claimed of the lines. By the definitions: nothing to run.
pub fn claim()
    ensures { LinesDiffer × LinesSeen × LinesLook × OthersRefused }
{}
