// The steps of the registry alone: add (3), remove (4), change leader (5). A refused step leaves the registry as it was.
#![tactic(auto, using(cluster::proofs::Steps::rules_refused))]

ghost use Rattle.model.specs.Steps as S;
ghost use Rattle.cluster.specs.Ended.{ruled};
ghost use Rattle.cluster.specs.Parts.{Rules};

use cluster::{Registry, Status};
use members::Board;
use refusal::{Refusal, ensure};

// Step 3, add b.
pub fn add(r: &mut Registry, b: u8) -> Result<(), Refusal>
    ensures { Rules (S.Step.add b) r.old (ruled result r.new) }
{
    let b = Board::new(b)?;
    ensure(r.status != Status::Choosing, Refusal::Status)?;
    ensure(!members::has(r.view.members, b), Refusal::Membership)?;
    ensure(r.view.epoch < 4000, Refusal::EpochsUsedUp)?; // "Raise" is the last check.
    r.view.epoch += 1;
    r.view.members = members::insert(r.view.members, b);
    r.status = Status::Waiting;
    Ok(())
}

// Step 4, remove b: normal if exactly one member is left, else waiting.
pub fn remove(r: &mut Registry, b: u8) -> Result<(), Refusal>
    ensures { Rules (S.Step.remove b) r.old (ruled result r.new) }
{
    let b = Board::new(b)?;
    ensure(r.status != Status::Choosing, Refusal::Status)?;
    ensure(members::has(r.view.members, b), Refusal::Membership)?;
    ensure(b.number != r.view.leader, Refusal::Leader)?;
    ensure(r.view.epoch < 4000, Refusal::EpochsUsedUp)?;
    r.view.epoch += 1;
    r.view.members = members::remove(r.view.members, b);
    r.status = if members::size(r.view.members) == 1 {
        Status::Normal
    } else {
        Status::Waiting
    };
    Ok(())
}

// Step 5, change leader: one member that is left leads from now on, of more one is chosen.
pub fn change(r: &mut Registry) -> Result<(), Refusal>
    ensures { Rules S.Step.change_leader r.old (ruled result r.new) }
{
    ensure(r.status == Status::Normal, Refusal::Status)?;
    ensure(2 <= members::size(r.view.members), Refusal::Leader)?;
    ensure(r.view.epoch < 4000, Refusal::EpochsUsedUp)?;
    r.view.epoch += 1;
    r.view.members = members::without(r.view.members, r.view.leader);
    if members::size(r.view.members) == 1 {
        r.view.term = r.view.epoch;
        r.view.leader = members::lowest(r.view.members);
    } else {
        r.view.leader = 0;
        r.status = Status::Choosing;
    }
    Ok(())
}
