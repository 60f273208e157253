// The texts of single lines of a listing, and the writer of a record's line. Inner layer: callers see to it that the
// page has room for the text.
#![tactic(auto, using(text::proofs::Laws::pages))]

ghost use Rattle.std.specs.Prelude.{◌≡◌, ◌+◌, ◌≤◌, length};
ghost use Rattle.members.specs.Mask.{bits};
ghost use Rattle.text.specs.Text.{Puts, HasRoom};
ghost use Rattle.lines.specs.Lines.{member_text, members_text, has_fourth, fourth_field, answer_line};

use members::Board;
use text::Page;

// Writes the digit of b if b is a member.
fn put_member(page: &mut Page<'_>, m: u8, b: Board)
    requires { HasRoom page.old (member_text (bits m) b.number) }
    ensures { Puts page.old (member_text (bits m) b.number) page.new }
{
    if members::has(m, b) {
        page.put_byte(b'0' + b.number);
    }
}

// Writes a set of members. Inner layer: callers see to the room.
#[tactic(auto, using(text::proofs::Laws::each_page))]
pub fn put_members(page: &mut Page<'_>, m: u8)
    requires { HasRoom page.old (members_text (bits m)) }
    ensures { Puts page.old (members_text (bits m)) page.new }
{
    for i in 0..8 {
        put_member(page, m, Board::at(i));
    }
}

// The line of a record: its number, from 1 on, its step, its answer and, on acceptance of 2, 13 and 15, the set behind
// it, as a mask. Step and answer stay numbers: the line prints them, and a sheet may hold any step.
#[derive(Clone, Copy)]
pub struct Line {
    pub record: u32,
    pub step: u8,
    pub answer: u8,
    pub set: u8,
}

impl Line {
    // Whether it has the set, as its fourth field.
    fn has_fourth(self) -> bool
        ensures { result ≡ has_fourth self.step self.answer }
    {
        self.answer == 0 && matches!(self.step, 2 | 13 | 15)
    }

    // How many bytes the fourth field has, with the space before it; 0 where there is none.
    #[tactic(auto, using(crate::proofs::Lengths::fourth))]
    pub fn fourth_length(self) -> usize
        ensures { (result ≡ length (fourth_field self.step self.answer (bits self.set))) × (result ≤ 9) }
    {
        if self.has_fourth() {
            1 + members::size(self.set) as usize
        } else {
            0
        }
    }

    // How long the line is: at most three numbers of ten digits, the fourth field and three bytes more, so that no sum
    // overflows.
    #[tactic(auto, using(crate::proofs::Lengths::one_line))]
    pub fn length(self) -> usize
        ensures text { result ≡ length (answer_line self.record self.step self.answer (bits self.set)) }
        ensures most { result ≤ 42 }
    {
        text::number_length(self.record)
            + text::number_length(self.step as u32)
            + text::number_length(self.answer as u32)
            + self.fourth_length()
            + 3
    }

    // Writes the fourth field: a space, then the set.
    #[tactic(auto, using(text::proofs::Laws::pages, crate::proofs::Lengths::fourth))]
    fn put_fourth(self, page: &mut Page<'_>)
        requires { HasRoom page.old (fourth_field self.step self.answer (bits self.set)) }
        ensures { Puts page.old (fourth_field self.step self.answer (bits self.set)) page.new }
    {
        if self.has_fourth() {
            page.put_byte(b' ');
            put_members(page, self.set);
        }
    }

    // Writes the line. Inner layer: callers see to the room.
    #[tactic(auto, using(text::proofs::Laws::pages), unfolding(crate::specs::Lines::answer_line))]
    pub fn put(self, page: &mut Page<'_>)
        requires { HasRoom page.old (answer_line self.record self.step self.answer (bits self.set)) }
        ensures { Puts page.old (answer_line self.record self.step self.answer (bits self.set)) page.new }
    {
        page.put_field(self.record);
        page.put_field(self.step as u32);
        page.put_number(self.answer as u32);
        self.put_fourth(page);
        page.put_byte(b'\n');
    }
}
