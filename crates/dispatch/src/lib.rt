// From a record of a sheet to its step. Inner layer: callers see to refusal 1; the calls of `steps` test it, the runner
// of sheets knows it.
#![tactic(auto)]

ghost use Rattle.model.specs.Records as R;
ghost use Rattle.cluster.specs.Ended.{outcome};
ghost use Rattle.refinement.specs.Refinement.{Full, Ready, Turns};
ghost use Rattle.refinement.specs.Lent.{SameLent, places_in};
ghost use Rattle.records.specs.Record.{record_of};

use cluster::Cluster;
use records::Record;
use refinement::LentMut;
use refusal::Refusal;

// Sends a record to its field check and its step; what is handed back are the members behind it. Inner layer: callers
// see to it that refusal 1 lets the row and the lent places through.
// Row and places stay two parameters: a row is lent alone too (`lending`), and its places are lent to be read (`Lent`)
// or written (`LentMut`).
pub fn send(row: &mut Cluster, p: &mut LentMut<'_>, r: Record) -> Result<u8, Refusal>
    requires { Ready row.old × Full (places_in p.old) }
    ensures same { SameLent p.old p.new }
    ensures step { Turns (R.step_of (record_of r)) row.old (places_in p.old)
        (outcome result row.new) (places_in p.new) }
{
    let step = r.step;
    // A match on numbers: document 01 has it, over all that a byte may hold (docs/DECISIONS.md, "Forms by place").
    match step {
        0 => Err(Refusal::Invalid),
        1 => {
            let (b, value) = r.board_and_value()?;
            steps_leader::append(row, p, b, value).and(Ok(0))
        }
        2..=4 => {
            let b = r.one_board()?;
            if step == 2 {
                steps_receipt::commit(row, p, b)
            } else if step == 3 {
                steps_central::add(row, b)
            } else {
                steps_central::remove(row, b)
            }
        }
        5 => {
            r.bare()?;
            steps_central::change(row)
        }
        6..=8 => {
            let b = r.one_board()?;
            if step == 6 {
                steps_follower::refresh(row, b).and(Ok(0))
            } else if step == 7 {
                steps_follower::join(row, p.lent(), b).and(Ok(0))
            } else {
                steps_follower::receive(row, p, b).and(Ok(0))
            }
        }
        9 => {
            let (a, b) = r.two_boards()?;
            steps_leader::acknowledge(row, a, b).and(Ok(0))
        }
        10..=11 => {
            r.bare()?;
            if step == 10 {
                steps_central::refresh_controller(row)
            } else {
                steps_central::read_leader(row)
            }
        }
        12 => {
            let b = r.one_board()?;
            steps_central::read(row, b)
        }
        13 => {
            r.bare()?;
            steps_central::set_normal(row)
        }
        14..=15 => {
            let b = r.one_board()?;
            if step == 14 {
                steps_central::hear(row, b)
            } else {
                steps_central::install(row, b)
            }
        }
        16..=255 => Err(Refusal::Invalid),
    }
}
