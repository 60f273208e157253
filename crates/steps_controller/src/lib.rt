// The steps of the controller alone: news (10), read leader (11), read (12), hear (14). A refused step hands no
// controller back: the caller has the old one. Inner layer: callers see to it that a log's length is at most 512, and
// to a leader at stage leader; `steps` and `hub` refuse others with 1. A length stays a number with a clause: a row and
// the hub's `Report` may hold any, and specs/Known.antt and `heard_of` speak of numbers.
#![tactic(auto, using(cluster::proofs::Steps::tells_refused))]

ghost use Rattle.std.specs.Prelude.{◌≡◌, ◌≤◌};
ghost use Rattle.model.specs.Steps as S;
ghost use Rattle.cluster.specs.Layout.{stage_of, controller_of};
ghost use Rattle.cluster.specs.Ended.{told};
ghost use Rattle.cluster.specs.Parts.{Tells};
ghost use Rattle.cluster.specs.Stages.{HasLeader};
ghost use Rattle.steps_controller.specs.Known.{RegistryKnown, LeaderKnown, ReadKnown, HearKnown};

use cluster::{Controller, Registry, Stage};
use members::Board;
use refusal::{Refusal, ensure};

// Step 10, the controller takes news of the registry r.
pub fn refresh_controller(c: Controller, r: Registry) -> Result<Controller, Refusal>
    ensures { Tells (RegistryKnown r) S.Step.refresh_controller c (told c result) }
{
    ensure(c.view.epoch < r.view.epoch, Refusal::NothingDue)?;
    Ok(Controller::deaf(r.view, Stage::from(r.status)))
}

// The controller c at stage g, once the length n and the joined epoch j are heard of the board b.
fn heard(mut c: Controller, g: Stage, b: Board, n: u16, j: u16) -> Controller
    requires { n ≤ 512 }
    ensures { controller_of result ≡ S.heard_of (controller_of c) (stage_of g) b.number n j }
{
    c.stage = g;
    c.heard[b.index()] = n + 1;
    c.joined[b.index()] = j;
    c
}

// Step 11, the controller reads its leader, whose epoch is e and whose log has n entries. Inner layer: callers see to
// the length, and to a leader at stage leader.
pub fn read_leader(c: Controller, e: u16, n: u16) -> Result<Controller, Refusal>
    requires { HasLeader c × (n ≤ 512) }
    ensures { Tells (LeaderKnown c e n) S.Step.read_leader c (told c result) }
{
    ensure(c.stage == Stage::Leader, Refusal::Stage)?;
    ensure(e == c.view.epoch, Refusal::EpochsDiffer)?;
    let b = Board::at((c.view.leader - 1) as usize);
    Ok(heard(c, Stage::Boards, b, n, 0))
}

// Step 12, the controller reads b, whose joined epoch is j and whose log has n entries. Inner layer: callers see to the
// length.
pub fn read(c: Controller, b: u8, j: u16, n: u16) -> Result<Controller, Refusal>
    requires { n ≤ 512 }
    ensures { Tells (ReadKnown b j n) (S.Step.read b) c (told c result) }
{
    let b = Board::new(b)?;
    ensure(c.stage == Stage::Boards, Refusal::Stage)?;
    ensure(b.number != c.view.leader, Refusal::Leader)?;
    ensure(members::has(c.view.members, b), Refusal::Membership)?;
    ensure(j == c.view.term, Refusal::Joining)?;
    ensure(c.heard[b.index()] <= n, Refusal::NothingDue)?; // Heard is none, 0, or one more than the length.
    Ok(heard(c, c.stage, b, n, 0))
}

// Step 14, the controller hears b, whose epoch is e, whose joined epoch is j and whose log has n entries.
// Inner layer: callers see to the length.
pub fn hear(c: Controller, b: u8, e: u16, j: u16, n: u16) -> Result<Controller, Refusal>
    requires { n ≤ 512 }
    ensures { Tells (HearKnown b e j n) (S.Step.hear b) c (told c result) }
{
    let b = Board::new(b)?;
    ensure(c.stage == Stage::Choosing, Refusal::Stage)?;
    ensure(members::has(c.view.members, b), Refusal::Membership)?;
    ensure(e == c.view.epoch, Refusal::EpochsDiffer)?;
    ensure(c.heard[b.index()] <= n, Refusal::NothingDue)?;
    Ok(heard(c, c.stage, b, n, j))
}
