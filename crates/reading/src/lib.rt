// Reading a line: a number within a text.
#![tactic(auto)]

ghost use Rattle.std.specs.Prelude.{◌≡◌, ◌+◌, ◌≤◌, length};
ghost use Rattle.reading.specs.Reading.{digits_at, reads};

// A number, and the place after its digits.
#[derive(Clone, Copy)]
pub struct Number {
    pub value: u64,
    pub end: usize,
}

// The number whose digits stand from place `at` on; 0 where there are none, as `reads 0` has it. By hand: `parse` takes
// a whole text and a `+` before it, and here the place after the digits is asked for. Inner layer: callers see to it
// that the text is so short that its numbers fit.
pub fn number_at(s: &[u8], at: usize) -> Number
    requires { (at ≤ length s.now) × (length s.now ≤ 16) }
    ensures { (result.value ≡ reads 0 (digits_at s.now at))
        × (result.end ≡ at + length (digits_at s.now at)) }
{
    let mut n = Number { value: 0, end: at };
    for &b in &s[at..] {
        if !b.is_ascii_digit() {
            break;
        }
        n.value = 10 * n.value + (b - b'0') as u64;
        n.end += 1;
    }
    n
}
