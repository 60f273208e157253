// The listing of the empty sheet, one line: for `sheet`.
#![tactic(auto)]

ghost use Rattle.text.specs.Text.{Delivers};
ghost use Rattle.unopened.specs.Unopened.{unopened};

use refusal::Refusal;

// Writes it if it fits; else refusal 3.
pub fn deliver(out: &mut [u8]) -> Result<usize, Refusal>
    ensures { Delivers unopened out.old out.new result }
{
    text::deliver(b"unopened\n", out)
}
