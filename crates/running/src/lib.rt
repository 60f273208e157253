// The run of a sheet, record by record: the row that it ends with, its answers and the sets behind them. For `sheet`,
// `explain` and `archive`. That a sheet passes refusal 2 stays a clause: a type would have to hold too that its numbers
// are bytes, as behind a field a proof does not know that, and the promises are of the bytes alone.
#![tactic(auto)]

ghost use Rattle.std.specs.Prelude.{◌≡◌, true, ◌-◌, ◌/◌, length, take};
ghost use Rattle.model.specs.Records.{opening_of};
ghost use Rattle.refinement.specs.Refinement.{Full};
ghost use Rattle.refinement.specs.Lent.{SameLent, places_in};
ghost use Rattle.steps_central.specs.Opening.{OpenedWith};
ghost use Rattle.records.specs.Bytes.{record_at, is_sheet};
ghost use Rattle.running.specs.Running.{Ran, answers_of};

use cluster::Cluster;
use records::Record;
use refinement::LentMut;

// The opening. Callers see to it that refusal 2 lets the sheet through.
fn begin(sheet: &[u8]) -> Cluster
    requires { is_sheet sheet.now ≡ true }
    ensures { OpenedWith (opening_of (record_at sheet.now)) result }
{
    steps_central::opening(Record::at(sheet, 0).board).0
}

// The whole sheet: its answers, and the sets behind them as masks. They stay two lists of numbers: `Ran` has them so,
// and `answers_of` has the answers alone. Inner layer: callers see to it that refusal 2 lets the sheet through, and
// that the lent places have their lengths.
pub fn play(sheet: &[u8], p: &mut LentMut<'_>, answers: &mut [u8], sets: &mut [u8]) -> Cluster
    requires { (is_sheet sheet.now ≡ true) × Full (places_in p.old)
        × (length answers.old ≡ 4096) × (length sets.old ≡ 4096) }
    ensures same { SameLent p.old p.new }
    ensures run { Ran sheet.now (length sheet.now / 8 - 1) result (places_in p.new) answers.new sets.new }
{
    let mut row = begin(sheet);
    answers[0] = 0;
    sets[0] = 0;
    for k in 1..sheet.len() / 8 {
        refinement::typed(row);
        let x = dispatch::send(&mut row, p, Record::at(sheet, 8 * k));
        answers[k] = refusal::answer(&x);
        sets[k] = x.unwrap_or(0);
    }
    row
}

// The answers of a sheet's records, in an array whose further bytes are free. Inner layer: callers see to it that
// refusal 2 lets the sheet through. The sheet is run in places of this frame: no function can hand out places of its
// own, and handing them out by value would copy 27,648 bytes.
pub fn answers(sheet: &[u8]) -> [u8; 4096]
    requires { is_sheet sheet.now ≡ true }
    ensures { take (length sheet.now / 8) result ≡ answers_of sheet.now }
{
    let mut answers = [0; 4096];
    let mut p = LentMut {
        store: &mut [0; 4096],
        store2: &mut [0; 4096],
        list: &mut [0; 512],
        list2: &mut [0; 512],
    };
    play(sheet, &mut p, &mut answers, &mut [0; 4096]);
    answers
}
