// Steps 10, 11, 12 and 14 of a whole row: its controller is lent to the call of `hub`. They stay four, as that has four
// calls: one over a closure would need its clauses beside theirs, and they have two to four lines each.
#![tactic(auto)]

ghost use Rattle.std.specs.Prelude.{◌≡◌};
ghost use Rattle.model.specs.Steps as S;
ghost use Rattle.cluster.specs.Ended.{outcome};
ghost use Rattle.hub.specs.Whole.{report_of};
ghost use Rattle.lending.specs.Put.{taken, put_to, IsLink};

use cluster::Cluster;
use hub::Report;
use members::Board;
use refusal::Refusal;

// What board b of the row tells.
fn report(row: &Cluster, b: Board) -> Report
    ensures { result ≡ report_of row.now b.number }
{
    Report {
        board: b.number,
        epoch: row.view(b).epoch,
        joined: row.joined(b),
        len: row.len(b),
    }
}

// Step 10.
pub fn refresh_controller(row: &mut Cluster) -> Result<u8, Refusal>
    ensures link { IsLink S.refresh_controller row.old (outcome result row.new) }
    ensures left { outcome result row.new ≡ put_to row.old (taken result row.new.controller) }
{
    refinement::typed(*row);
    let g = row.registry;
    hub::refresh_controller(&mut row.controller, g)
}

// Step 11. If the controller has no leader, board 1 tells: the step is refused then.
pub fn read_leader(row: &mut Cluster) -> Result<u8, Refusal>
    ensures link { IsLink S.read_leader row.old (outcome result row.new) }
    ensures left { outcome result row.new ≡ put_to row.old (taken result row.new.controller) }
{
    refinement::typed(*row);
    let b = Board::new(row.controller.view.leader).unwrap_or(Board::at(0));
    let x = report(row, b);
    hub::read_leader(&mut row.controller, x)
}

// Step 12.
pub fn read(row: &mut Cluster, b: Board) -> Result<u8, Refusal>
    ensures link { IsLink (S.read b.number) row.old (outcome result row.new) }
    ensures left { outcome result row.new ≡ put_to row.old (taken result row.new.controller) }
{
    refinement::typed(*row);
    let x = report(row, b);
    hub::read(&mut row.controller, x)
}

// Step 14.
pub fn hear(row: &mut Cluster, b: Board) -> Result<u8, Refusal>
    ensures link { IsLink (S.hear b.number) row.old (outcome result row.new) }
    ensures left { outcome result row.new ≡ put_to row.old (taken result row.new.controller) }
{
    refinement::typed(*row);
    let x = report(row, b);
    hub::hear(&mut row.controller, x)
}
