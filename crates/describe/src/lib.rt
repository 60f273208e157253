// A record and its answer in words, in a lent slice: the call behind the entry for the hub's firmware (crate row).
#![tactic(auto)]

ghost use Rattle.std.specs.Prelude.{◌≡◌};
ghost use Rattle.phrases.specs.Describe.{outcome_of, left};

use records::Record;
use refusal::{Refusal, ensure};
use telling::Told;
use text::deliver;

// The line of a record and its answer. It returns the line's length; refusal 1 for a record that is not 8 bytes long or
// an answer that is not on the list, then 3 for a slice that is shorter than the line; both leave the slice untouched.
#[tactic(auto, using(crate::proofs::Describing::describing))]
pub fn describe_record(bytes: &[u8], answer: usize, line: &mut [u8]) -> Result<usize, Refusal>
    ensures { (result ≡ outcome_of bytes.now answer line.old)
        × (line.new ≡ left bytes.now answer line.old) }
{
    ensure(
        bytes.len() == 8 && wording::is_listed(answer),
        Refusal::Invalid,
    )?;
    let told = Told::new(Record::at(bytes, 0), answer);
    let text = told.text();
    deliver(text, line)
}
