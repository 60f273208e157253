// The steps of registry and controller: set normal (13), install (15). A refused step leaves both as they were.
#![tactic(auto, using(cluster::proofs::Steps::settles_refused))]

ghost use Rattle.std.specs.Prelude.{◌≡◌, ◌&&◌, ◌<◌, IfOk, leb};
ghost use Rattle.model.specs.Prelude.{first_failed};
ghost use Rattle.model.specs.Members.{◌∩◌, is_quorum};
ghost use Rattle.model.specs.Steps as S;
ghost use Rattle.refusal.specs.Refusal.{answer};
ghost use Rattle.members.specs.Mask.{bits};
ghost use Rattle.cluster.specs.Layout.{at, controller_of};
ghost use Rattle.cluster.specs.Ended.{settled};
ghost use Rattle.cluster.specs.Parts.{Settles};
ghost use Rattle.steps_both.specs.Checks.{set_normal_checks, install_checks};

use cluster::{Controller, Registry, Stage, Status, View};
use members::Board;
use refusal::{Refusal, ensure};

// What is heard of b, 0 for what is no replica: of a number, as a view names its leader by one, and as `at` has it.
fn heard_at(c: &Controller, b: u8) -> u16
    ensures { result ≡ at 0 c.now.heard b }
{
    match Board::new(b) {
        Ok(b) => c.heard[b.index()],
        Err(_) => 0,
    }
}

// Step 13: the controller's members that are heard at a length not below the leader's heard one.
fn heard_enough(c: &Controller) -> u8
    ensures { bits result ≡ bits c.now.view.members ∩ S.heard_enough (controller_of c.now) }
{
    let low = heard_at(c, c.view.leader);
    members::filter(
        c.view.members,
        |x| 1 <= c.heard[x.index()] && low <= c.heard[x.index()],
    )
}

// Step 13: what is answered where the members heard are enough or not.
fn may_set_normal(r: &Registry, c: &Controller, enough: bool) -> Result<(), Refusal>
    ensures checks { answer result ≡ first_failed (set_normal_checks r.now c.now enough) }
    ensures room { IfOk result (λ x. r.now.view.epoch < 4000) }
{
    ensure(c.stage == Stage::Boards, Refusal::Stage)?;
    ensure(c.view.epoch == r.view.epoch, Refusal::EpochsDiffer)?; // Lengths heard in an earlier epoch do not count.
    ensure(enough, Refusal::NoMajority)?;
    ensure(r.view.epoch < 4000, Refusal::EpochsUsedUp)
}

// Step 13, the registry goes normal on the controller's word. Hands back all that qualify.
pub fn set_normal(r: &mut Registry, c: &mut Controller) -> Result<u8, Refusal>
    ensures { Settles S.Step.set_normal r.old c.old (settled result r.new c.new) }
{
    let heard = heard_enough(c);
    may_set_normal(r, c, members::is_quorum(c.view.members, heard))?;
    r.view.epoch += 1;
    r.status = Status::Normal;
    *c = Controller::deaf(
        View {
            epoch: r.view.epoch,
            ..c.view
        },
        Stage::Idle,
    );
    Ok(heard)
}

// Step 15: the controller's members that are heard and do not rank above b.
fn ranked_not_above(c: &Controller, b: Board) -> u8
    ensures { bits result ≡ bits c.now.view.members ∩ S.ranked_not_above (controller_of c.now) b.number }
{
    members::filter(
        c.view.members,
        |x| 1 <= c.heard[x.index()] && !c.ranks_above(x, b),
    )
}

// Step 15: whether b is heard, and enough are behind it: the members of fit.
fn are_enough(c: &Controller, b: Board, fit: u8) -> bool
    ensures { result ≡ (leb 1 (at 0 c.now.heard b.number) && is_quorum (bits c.now.view.members) (bits fit)) }
{
    1 <= c.heard[b.index()] && members::is_quorum(c.view.members, fit)
}

// Step 15: what is answered about b, where b and the members not ranked above b are heard and enough or not.
fn may_install(r: &Registry, c: &Controller, b: Board, enough: bool) -> Result<(), Refusal>
    ensures checks { answer result ≡ first_failed (install_checks r.now c.now b.number enough) }
    ensures room { IfOk result (λ x. r.now.view.epoch < 4000) }
{
    ensure(c.stage == Stage::Choosing, Refusal::Stage)?;
    ensure(members::has(c.view.members, b), Refusal::Membership)?;
    ensure(c.view.epoch == r.view.epoch, Refusal::EpochsDiffer)?;
    ensure(enough, Refusal::NoMajority)?;
    ensure(r.view.epoch < 4000, Refusal::EpochsUsedUp)
}

// Step 15, the controller installs b. Hands back all that qualify.
pub fn install(r: &mut Registry, c: &mut Controller, b: u8) -> Result<u8, Refusal>
    ensures { Settles (S.Step.install b) r.old c.old (settled result r.new c.new) }
{
    let b = Board::new(b)?;
    let fit = ranked_not_above(c, b);
    may_install(r, c, b, are_enough(c, b, fit))?;
    r.view.epoch += 1;
    r.view.term = r.view.epoch;
    r.view.leader = b.number;
    r.status = Status::Waiting;
    let members = c.view.members;
    *c = Controller::deaf(View { members, ..r.view }, Stage::Leader);
    Ok(fit)
}
