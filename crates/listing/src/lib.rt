// The first lines of a listing: record, step, answer, and the set behind an accepted 2, 13 or 15. Inner layer: callers
// see to the room, and that the ending is short.
#![tactic(auto, using(text::proofs::Laws::pages))]

ghost use Rattle.std.specs.Prelude.{◌≡◌, ◌++◌, ℕ, ◌+◌, ◌*◌, ◌/◌, ◌≤◌, ◌<◌, leb, length, get_or};
ghost use Rattle.text.specs.Text.{Puts, HasRoom, Delivers};
ghost use Rattle.listing.specs.Listing.{all_lines};

use lines::Line;
use refusal::{Refusal, ensure};
use text::Page;

// A sheet that was run: an answer and a set, as a mask, for each record, 4,095 of them at most, and no answer of more
// than two digits. (Three lists side by side, and answers as numbers: `Ran` of crate running has the two lists of
// numbers and `all_lines` the three, a sheet is bytes, and `explain` asks for the answers alone. `Answered` there has
// the like four calls: a trait for both, with a line's writer, its bound, and the laws of the two, would be as long as
// they are.)
#[derive(Clone, Copy)]
pub struct Listed<'a> {
    pub sheet: &'a [u8],
    pub answers: &'a [u8],
    pub sets: &'a [u8],
    // (Behind a field a proof does not know that these are bytes.)
    ghost bytes: { (i : ℕ) → get_or sheet.now i 0 < 256 },
    ghost few: { length sheet.now / 8 ≤ 4095 },
    ghost answered: { length sheet.now / 8 ≤ length answers.now },
    ghost behind: { length sheet.now / 8 ≤ length sets.now },
    ghost small: { (i : ℕ) → i < length sheet.now / 8 → get_or answers.now i 0 < 100 },
}

impl Listed<'_> {
    // The line of the record after i others.
    fn line(&self, i: usize) -> Line
        requires { i < length self.now.sheet.now / 8 }
        ensures record { result.record ≡ i + 1 }
        ensures step { result.step ≡ get_or self.now.sheet.now (8 * i) 0 }
        ensures answer { result.answer ≡ get_or self.now.answers.now i 0 }
        ensures set { result.set ≡ get_or self.now.sets.now i 0 }
    {
        Line {
            record: i as u32 + 1,
            step: self.sheet[8 * i],
            answer: self.answers[i],
            set: self.sets[i],
        }
    }

    // How long the records' lines are.
    #[tactic(auto, using(crate::proofs::AnswerLines::each_line))]
    fn length(&self) -> usize
        ensures lines { result ≡ length (all_lines self.now.sheet.now self.now.answers.now self.now.sets.now) }
        ensures most { result ≤ 171990 }
    {
        let mut total = 0;
        for i in 0..self.sheet.len() / 8 {
            total += self.line(i).length();
        }
        total
    }

    // Whether a slice of `room` bytes has place for the lines and `end` bytes more. A line has at most 19 bytes, so
    // where there is place for as many of each record, no line is counted.
    fn fits(&self, end: usize, room: usize) -> bool
        requires { end ≤ 8704 }
        ensures { let text = all_lines self.now.sheet.now self.now.answers.now self.now.sets.now in
            result ≡ leb (length text + end) room }
    {
        19 * (self.sheet.len() / 8) + end <= room || self.length() + end <= room
    }

    // Writes the records' lines.
    #[tactic(auto, using(text::proofs::Laws::each_page, crate::proofs::AnswerLines::each_line))]
    fn put(&self, page: &mut Page<'_>)
        requires { HasRoom page.old (all_lines self.now.sheet.now self.now.answers.now self.now.sets.now) }
        ensures { Puts page.old (all_lines self.now.sheet.now self.now.answers.now self.now.sets.now) page.new }
    {
        for i in 0..self.sheet.len() / 8 {
            self.line(i).put(page);
        }
    }

    // Writes the lines of the records and the ending after them, if both fit; else refusal 3. Inner layer: callers see
    // to it that the ending is short.
    pub fn deliver(&self, ending: &[u8], out: &mut [u8]) -> Result<usize, Refusal>
        requires { length ending.now ≤ 8704 }
        ensures { let text = all_lines self.now.sheet.now self.now.answers.now self.now.sets.now in
            Delivers (text ++ ending.now) out.old out.new result }
    {
        ensure(self.fits(ending.len(), out.len()), Refusal::Room)?;
        let mut page = Page::new(&mut *out);
        self.put(&mut page);
        page.put_bytes(ending);
        Ok(page.at)
    }
}
