// Writers of bytes and numbers: a page is a lent slice with the place of the next byte. Inner layer: callers see to it
// that a page has room for the text.
#![tactic(auto)]

ghost use Rattle.std.specs.Prelude.{◌∷◌, [], ◌++◌, ◌≡◌, ◌<◌, ◌≤◌, ◌+◌, length};
ghost use Rattle.text.specs.Text.{Wrote, Puts, HasRoom, Delivers, digits};

use refusal::{Refusal, ensure};

// How many digits put_number writes: a listing's length is known before any of it is written. By comparisons: with a
// division for each digit, as in `while left >= 10`, a line's numbers took a third longer to write.
#[tactic(auto, using(crate::proofs::Laws::digit_lengths))]
pub fn number_length(n: u32) -> usize
    ensures { result ≡ length (digits n) }
{
    match n {
        0..=9 => 1,
        10..=99 => 2,
        100..=999 => 3,
        1000..=9999 => 4,
        10000..=99999 => 5,
        100000..=999999 => 6,
        1000000..=9999999 => 7,
        10000000..=99999999 => 8,
        100000000..=999999999 => 9,
        _ => 10,
    }
}

// A lent slice that is being written: the next byte goes to place `at`.
#[derive(Drop)]
pub struct Page<'a> {
    pub out: &'a mut [u8],
    pub at: usize,
}

impl<'a> Page<'a> {
    // The page of a slice, from its start on.
    pub fn new(out: &'a mut [u8]) -> Page<'a>
        ensures same { result.out.ghost_name ≡ out.entry.ghost_name }
        ensures text { result.out.now ≡ out.old }
        ensures start { result.at ≡ 0 }
    {
        Page { out, at: 0 }
    }

    // Writes one byte. Inner layer: callers see to the room.
    pub fn put_byte(&mut self, b: u8)
        requires { HasRoom self.old (b ∷ []) }
        ensures { Puts self.old (b ∷ []) self.new }
    {
        self.out[self.at] = b;
        self.at += 1;
    }

    // Writes the bytes of a text. By a loop: `copy_from_slice` makes the archive for C ask for memmove. Inner layer:
    // callers see to the room.
    pub fn put_bytes(&mut self, text: &[u8])
        requires { HasRoom self.old text.now }
        ensures { Puts self.old text.now self.new }
    {
        for (i, &b) in text.iter().enumerate() {
            self.out[self.at + i] = b;
        }
        self.at += text.len();
    }

    // Writes a number. The digits are stored from the last to the first, each from what is left of n. By an index: a
    // loop over the places from the last one on would divide once more, for the first digit. Inner layer: callers see
    // to the room.
    pub fn put_number(&mut self, n: u32)
        requires { HasRoom self.old (digits n) }
        ensures { Puts self.old (digits n) self.new }
    {
        let end = self.at + number_length(n);
        let mut i = end;
        let mut left = n;
        while left >= 10 {
            i -= 1;
            self.out[i] = b'0' + (left % 10) as u8;
            left /= 10;
        }
        self.out[self.at] = b'0' + left as u8;
        self.at = end;
    }

    // Writes a number and a space after it. Inner layer: callers see to the room.
    #[tactic(auto, using(crate::proofs::Laws::pages))]
    pub fn put_field(&mut self, n: u32)
        requires { HasRoom self.old (digits n ++ (32 ∷ [])) }
        ensures { Puts self.old (digits n ++ (32 ∷ [])) self.new }
    {
        self.put_number(n);
        self.put_byte(b' ');
    }
}

// Hands out a text for a slice that may be too short for it; refusal 3 then, and the slice as it was.
pub fn deliver(text: &[u8], out: &mut [u8]) -> Result<usize, Refusal>
    ensures { Delivers text.now out.old out.new result }
{
    ensure(text.len() <= out.len(), Refusal::Room)?;
    let mut page = Page::new(&mut *out);
    page.put_bytes(text);
    Ok(page.at)
}
