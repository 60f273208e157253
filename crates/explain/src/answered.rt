// The records of a sheet with their answers, told line by line.

ghost use Rattle.std.specs.Prelude.{true, ◌≡◌, ℕ, ◌/◌, ◌≤◌, ◌<◌, length, get_or};
ghost use Rattle.phrases.specs.Phrases.{is_listed};

use records::Record;
use refusal::{Refusal, ensure};
use telling::{Told, put_line};
use text::Page;

// A sheet of at most 4,095 records, and an answer on the list for each: numbers, as `running::answers` hands them over
// and as `is_listed` and `lines_of` have them. (`Listed` of crate listing has the like four calls: a trait for both,
// with a line's writer, its bound, and the laws of the two, would be as long as they are.)
#[derive(Clone, Copy)]
pub struct Answered<'a> {
    pub sheet: &'a [u8],
    pub answers: &'a [u8],
    pub ghost bytes: { (i : ℕ) → get_or sheet.now i 0 ≤ 255 },
    pub ghost few: { length answers.now ≤ 4095 },
    pub ghost each: { length answers.now ≡ length sheet.now / 8 },
    pub ghost listed: { (i : ℕ) → i < length answers.now → is_listed (get_or answers.now i 0) ≡ true },
}

impl Answered<'_> {
    ghost use Rattle.std.specs.Prelude.{leb};
    ghost use Rattle.text.specs.Text.{HasRoom, Puts, Delivers};
    ghost use Rattle.explain.specs.Explain.{lines_of};

    // How long the lines are.
    #[tactic(auto, using(text::proofs::Laws::each_page))]
    fn length(&self) -> usize
        ensures { result ≡ length (lines_of self.now.sheet.now self.now.answers.now) }
    {
        let mut total = 0;
        for (i, &answer) in self.answers.iter().enumerate() {
            let told = Told::new(Record::at(self.sheet, 8 * i), answer as usize);
            total += told.text().len();
        }
        total
    }

    // Whether a slice of `room` bytes has place for them. A line has at most 96 bytes, so where there is place for as
    // many of each record, no line is counted.
    fn has_room(&self, room: usize) -> bool
        ensures { result ≡ leb (length (lines_of self.now.sheet.now self.now.answers.now)) room }
    {
        96 * self.answers.len() <= room || self.length() <= room
    }

    // Writes them.
    #[tactic(auto, using(text::proofs::Laws::each_page))]
    fn put(&self, page: &mut Page<'_>)
        requires { HasRoom page.old (lines_of self.now.sheet.now self.now.answers.now) }
        ensures { Puts page.old (lines_of self.now.sheet.now self.now.answers.now) page.new }
    {
        for (i, &answer) in self.answers.iter().enumerate() {
            put_line(page, Record::at(self.sheet, 8 * i), answer as usize);
        }
    }

    // Writes them if they fit; else refusal 3.
    pub fn deliver(&self, out: &mut [u8]) -> Result<usize, Refusal>
        ensures { Delivers (lines_of self.now.sheet.now self.now.answers.now) out.old out.new result }
    {
        ensure(self.has_room(out.len()), Refusal::Room)?;
        let mut page = Page::new(out);
        self.put(&mut page);
        Ok(page.at)
    }
}
