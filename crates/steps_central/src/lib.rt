// The opening, and the steps of the registry and the controller: add (3), remove (4), change leader (5), controller
// news (10), read leader (11), read (12), set normal (13), hear (14), install (15), as steps of a row. Each promise is
// for logs of at most 512 entries, for every number of receipts up to 512, and for all lent places of their lengths.
// Inner layer: callers see to it that no log is longer than 512 where a step looks at one. The nine stay functions of
// their own, of a line each under their step's promise. A log's length stays a clause: `shown::fits` looks at rows of
// any, for refusal 1.
#![tactic(auto)]

ghost use Rattle.std.specs.Prelude.{◌≡◌, List, ℕ};
ghost use Rattle.model.specs.State as M;
ghost use Rattle.model.specs.Steps as S;
ghost use Rattle.refusal.specs.Refusal.{answer, handed};
ghost use Rattle.cluster.specs.Ended.{outcome, settled};
ghost use Rattle.refinement.specs.Refinement.{Short, HasLeader, Governs, RestStays};
ghost use Rattle.steps_central.specs.Opening.{Opens, OpenedWith};

use cluster::{Cluster, Controller, Registry, Stage, Status, View};
use members::Board;
use refusal::Refusal;

// The row opened with the board b.
fn opened(b: Board) -> Cluster
    ensures { OpenedWith (M.opening_with b.number) result }
{
    let view = View {
        epoch: 1,
        term: 1,
        leader: b.number,
        members: members::single(b),
    };
    Cluster {
        registry: Registry {
            view,
            status: Status::Normal,
        },
        controller: Controller::deaf(view, Stage::Idle),
        views: [view; 8],
        joined: [1; 8],
        acked: [0; 64],
        len: [0; 8],
        issued: 0,
    }
}

// The opening call; refused for a number that is no replica. The row stands beside the result, as that of a refused
// opening is promised too: it is the one opened with board 1.
pub fn opening(b: u8) -> (Cluster, Result<u8, Refusal>)
    ensures { Opens (M.opening_with b) (outcome result.1 result.0) }
{
    match Board::new(b) {
        Ok(b) => (opened(b), Ok(0)),
        Err(e) => (opened(Board::at(0)), Err(e)),
    }
}

// A step that asks no majority has no one behind it.
fn nobody(x: Result<(), Refusal>) -> Result<u8, Refusal>
    ensures answer { answer result ≡ answer x }
    ensures set { handed 0 result ≡ 0 }
{
    x?;
    Ok(0)
}

// The controller that a step hands back, if it is accepted; no one is behind it.
fn take(row: &mut Cluster, x: Result<Controller, Refusal>) -> Result<u8, Refusal>
    ensures answer { answer result ≡ answer x }
    ensures set { handed 0 result ≡ 0 }
    ensures row { row.new ≡ record row.old { controller = handed row.old.controller x } }
{
    row.controller = x?;
    Ok(0)
}

// Step 3, the registry adds b.
pub fn add(row: &mut Cluster, b: u8) -> Result<u8, Refusal>
    ensures step { (views : List View) (joined len : List ℕ) → Short len
        → Governs (S.Step.add b) row.old.registry row.old.controller views joined len
        (settled result row.new.registry row.new.controller) }
    ensures rest { RestStays row.old row.new }
{
    nobody(steps_registry::add(&mut row.registry, b))
}

// Step 4, the registry removes b.
pub fn remove(row: &mut Cluster, b: u8) -> Result<u8, Refusal>
    ensures step { (views : List View) (joined len : List ℕ) → Short len
        → Governs (S.Step.remove b) row.old.registry row.old.controller views joined len
        (settled result row.new.registry row.new.controller) }
    ensures rest { RestStays row.old row.new }
{
    nobody(steps_registry::remove(&mut row.registry, b))
}

// Step 5, the registry changes the leader.
pub fn change(row: &mut Cluster) -> Result<u8, Refusal>
    ensures step { (views : List View) (joined len : List ℕ) → Short len
        → Governs S.Step.change_leader row.old.registry row.old.controller views joined len
        (settled result row.new.registry row.new.controller) }
    ensures rest { RestStays row.old row.new }
{
    nobody(steps_registry::change(&mut row.registry))
}

// Step 10, the controller takes news.
pub fn refresh_controller(row: &mut Cluster) -> Result<u8, Refusal>
    ensures step { (views : List View) (joined len : List ℕ) → Short len
        → Governs S.Step.refresh_controller row.old.registry row.old.controller views joined len
        (settled result row.new.registry row.new.controller) }
    ensures rest { RestStays row.old row.new }
{
    let c = steps_controller::refresh_controller(row.controller, row.registry);
    take(row, c)
}

// Step 11, the controller reads its leader. Inner layer: callers see to the leader and the lengths.
pub fn read_leader(row: &mut Cluster) -> Result<u8, Refusal>
    requires { HasLeader row.old.controller × Short row.old.len }
    ensures step { (joined : List ℕ) → Governs S.Step.read_leader row.old.registry row.old.controller
        row.old.views joined row.old.len (settled result row.new.registry row.new.controller) }
    ensures rest { RestStays row.old row.new }
{
    // Without a leader the stage is another than leader.
    let Ok(b) = Board::new(row.controller.view.leader) else {
        return Err(Refusal::Stage);
    };
    let c = steps_controller::read_leader(row.controller, row.view(b).epoch, row.len(b));
    take(row, c)
}

// Step 12, the controller reads b. Inner layer: callers see to the lengths.
pub fn read(row: &mut Cluster, b: u8) -> Result<u8, Refusal>
    requires { Short row.old.len }
    ensures step { (views : List View) → Governs (S.Step.read b) row.old.registry row.old.controller
        views row.old.joined row.old.len (settled result row.new.registry row.new.controller) }
    ensures rest { RestStays row.old row.new }
{
    let b = Board::new(b)?;
    let c = steps_controller::read(row.controller, b.number, row.joined(b), row.len(b));
    take(row, c)
}

// Step 13, the registry goes normal on the controller's word.
pub fn set_normal(row: &mut Cluster) -> Result<u8, Refusal>
    ensures step { (views : List View) (joined len : List ℕ) → Short len
        → Governs S.Step.set_normal row.old.registry row.old.controller views joined len
        (settled result row.new.registry row.new.controller) }
    ensures rest { RestStays row.old row.new }
{
    steps_both::set_normal(&mut row.registry, &mut row.controller)
}

// Step 14, the controller hears b. Inner layer: callers see to the lengths.
pub fn hear(row: &mut Cluster, b: u8) -> Result<u8, Refusal>
    requires { Short row.old.len }
    ensures step { Governs (S.Step.hear b) row.old.registry row.old.controller
        row.old.views row.old.joined row.old.len (settled result row.new.registry row.new.controller) }
    ensures rest { RestStays row.old row.new }
{
    let b = Board::new(b)?;
    let c = steps_controller::hear(
        row.controller,
        b.number,
        row.view(b).epoch,
        row.joined(b),
        row.len(b),
    );
    take(row, c)
}

// Step 15, the controller installs b.
pub fn install(row: &mut Cluster, b: u8) -> Result<u8, Refusal>
    ensures step { (views : List View) (joined len : List ℕ) → Short len
        → Governs (S.Step.install b) row.old.registry row.old.controller views joined len
        (settled result row.new.registry row.new.controller) }
    ensures rest { RestStays row.old row.new }
{
    steps_both::install(&mut row.registry, &mut row.controller, b)
}
