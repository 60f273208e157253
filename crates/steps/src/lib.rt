// The public calls: the opening, the fifteen steps, any record. None asks anything of its caller: refusal 1 is tested
// first. A call answers with the set behind its step, as a mask, or with its refusal, and then it leaves the row and
// the lent places as they were. Row and places stay two parameters: memory has them apart, a row is lent alone too
// (`lending`), and its places are lent to be read (`Lent`) or written (`LentMut`).
#![tactic(auto)]

ghost use Rattle.model.specs.State as M;
ghost use Rattle.model.specs.Steps as S;
ghost use Rattle.model.specs.Records as R;
ghost use Rattle.cluster.specs.Ended.{outcome};
ghost use Rattle.refinement.specs.Lent.{SameLent, places_in};
ghost use Rattle.refinement.specs.Rows.{RowsFixed, MasksFixed};
ghost use Rattle.steps_central.specs.Opening.{Opens};
ghost use Rattle.steps.specs.Calls.{CallsSafe, NamesHold};
ghost use Rattle.records.specs.Record.{record_of};
ghost use Rattle.steps.specs.Call.{Did};

use cluster::Cluster;
use records::Record;
use refinement::LentMut;
use refusal::Refusal;

// The opening with board b, and its row; it is lent nothing. Refused, the row is the one opened with board 1.
pub fn opening(b: u8) -> (Cluster, Result<u8, Refusal>)
    ensures { Opens (M.opening_with b) (outcome result.1 result.0) }
{
    steps_central::opening(b)
}

// Any record: refusal 1 first, then its step.
pub fn step(row: &mut Cluster, p: &mut LentMut<'_>, r: Record) -> Result<u8, Refusal>
    ensures same { SameLent p.old p.new }
    ensures did { Did (R.step_of (record_of r)) row.old (places_in p.old) (outcome result row.new) (places_in p.new) }
{
    if !shown::fits(row, p.lent()) {
        return Err(Refusal::Invalid);
    }
    dispatch::send(row, p, r)
}

// The record of a step and a board, the other fields 0: `Record::of` as a macro, since the proofs of the fifteen calls,
// which the check finds alone, read the record's fields.
macro_rules! of {
    ($step:expr, $board:expr) => {
        Record {
            step: $step,
            board: $board,
            other: 0,
            spare: 0,
            value: 0,
        }
    };
}

// The fifteen steps, each as the record that stands for it. They stay fifteen: README and docs/ name each as a call.

// Step 1, b appends the value.
pub fn append(row: &mut Cluster, p: &mut LentMut<'_>, b: u8, value: u32) -> Result<u8, Refusal>
    ensures same { SameLent p.old p.new }
    ensures did { Did (S.Step.append b value) row.old (places_in p.old) (outcome result row.new) (places_in p.new) }
{
    step(row, p, Record { value, ..of!(1, b) })
}

// Step 2, a receipt by b.
pub fn commit(row: &mut Cluster, p: &mut LentMut<'_>, b: u8) -> Result<u8, Refusal>
    ensures same { SameLent p.old p.new }
    ensures did { Did (S.Step.commit b) row.old (places_in p.old) (outcome result row.new) (places_in p.new) }
{
    step(row, p, of!(2, b))
}

// Step 3, add b.
pub fn add(row: &mut Cluster, p: &mut LentMut<'_>, b: u8) -> Result<u8, Refusal>
    ensures same { SameLent p.old p.new }
    ensures did { Did (S.Step.add b) row.old (places_in p.old) (outcome result row.new) (places_in p.new) }
{
    step(row, p, of!(3, b))
}

// Step 4, remove b.
pub fn remove(row: &mut Cluster, p: &mut LentMut<'_>, b: u8) -> Result<u8, Refusal>
    ensures same { SameLent p.old p.new }
    ensures did { Did (S.Step.remove b) row.old (places_in p.old) (outcome result row.new) (places_in p.new) }
{
    step(row, p, of!(4, b))
}

// Step 5, change leader.
pub fn change(row: &mut Cluster, p: &mut LentMut<'_>) -> Result<u8, Refusal>
    ensures same { SameLent p.old p.new }
    ensures did { Did S.Step.change_leader row.old (places_in p.old) (outcome result row.new) (places_in p.new) }
{
    step(row, p, of!(5, 0))
}

// Step 6, b takes news.
pub fn refresh(row: &mut Cluster, p: &mut LentMut<'_>, b: u8) -> Result<u8, Refusal>
    ensures same { SameLent p.old p.new }
    ensures did { Did (S.Step.refresh b) row.old (places_in p.old) (outcome result row.new) (places_in p.new) }
{
    step(row, p, of!(6, b))
}

// Step 7, b joins.
pub fn join(row: &mut Cluster, p: &mut LentMut<'_>, b: u8) -> Result<u8, Refusal>
    ensures same { SameLent p.old p.new }
    ensures did { Did (S.Step.join b) row.old (places_in p.old) (outcome result row.new) (places_in p.new) }
{
    step(row, p, of!(7, b))
}

// Step 8, b receives.
pub fn receive(row: &mut Cluster, p: &mut LentMut<'_>, b: u8) -> Result<u8, Refusal>
    ensures same { SameLent p.old p.new }
    ensures did { Did (S.Step.receive b) row.old (places_in p.old) (outcome result row.new) (places_in p.new) }
{
    step(row, p, of!(8, b))
}

// Step 9, the leader a counts b.
pub fn acknowledge(row: &mut Cluster, p: &mut LentMut<'_>, a: u8, b: u8) -> Result<u8, Refusal>
    ensures same { SameLent p.old p.new }
    ensures did { Did (S.Step.acknowledge a b) row.old (places_in p.old) (outcome result row.new) (places_in p.new) }
{
    step(
        row,
        p,
        Record {
            other: b,
            ..of!(9, a)
        },
    )
}

// Step 10, the controller takes news.
pub fn refresh_controller(row: &mut Cluster, p: &mut LentMut<'_>) -> Result<u8, Refusal>
    ensures same { SameLent p.old p.new }
    ensures did { Did S.Step.refresh_controller row.old (places_in p.old) (outcome result row.new) (places_in p.new) }
{
    step(row, p, of!(10, 0))
}

// Step 11, the controller reads its leader.
pub fn read_leader(row: &mut Cluster, p: &mut LentMut<'_>) -> Result<u8, Refusal>
    ensures same { SameLent p.old p.new }
    ensures did { Did S.Step.read_leader row.old (places_in p.old) (outcome result row.new) (places_in p.new) }
{
    step(row, p, of!(11, 0))
}

// Step 12, the controller reads b.
pub fn read(row: &mut Cluster, p: &mut LentMut<'_>, b: u8) -> Result<u8, Refusal>
    ensures same { SameLent p.old p.new }
    ensures did { Did (S.Step.read b) row.old (places_in p.old) (outcome result row.new) (places_in p.new) }
{
    step(row, p, of!(12, b))
}

// Step 13, set normal.
pub fn set_normal(row: &mut Cluster, p: &mut LentMut<'_>) -> Result<u8, Refusal>
    ensures same { SameLent p.old p.new }
    ensures did { Did S.Step.set_normal row.old (places_in p.old) (outcome result row.new) (places_in p.new) }
{
    step(row, p, of!(13, 0))
}

// Step 14, the controller hears b.
pub fn hear(row: &mut Cluster, p: &mut LentMut<'_>, b: u8) -> Result<u8, Refusal>
    ensures same { SameLent p.old p.new }
    ensures did { Did (S.Step.hear b) row.old (places_in p.old) (outcome result row.new) (places_in p.new) }
{
    step(row, p, of!(14, b))
}

// Step 15, install b.
pub fn install(row: &mut Cluster, p: &mut LentMut<'_>, b: u8) -> Result<u8, Refusal>
    ensures same { SameLent p.old p.new }
    ensures did { Did (S.Step.install b) row.old (places_in p.old) (outcome result row.new) (places_in p.new) }
{
    step(row, p, of!(15, b))
}

// Demand 3 about the calls: for every opening and every list of calls, by record or by name, whatever the lent places
// held before. Nothing to run: the promise is the statement.
pub fn claim()
    ensures { CallsSafe × NamesHold × RowsFixed × MasksFixed }
{}
