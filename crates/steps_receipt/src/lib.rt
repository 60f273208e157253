// The receipt of a leader: commit (2), on a row and the lent places. Inner layer: callers see to it that there are at
// most 512 receipts, that the lent places have their lengths and that no log is longer than 512.
// No invariant of row or places says so: `shown::fits` looks at those of any lengths, for refusal 1, and a type that says
// it would be made anew of both in each step, and taken apart for what changes.
#![tactic(auto)]

ghost use Rattle.std.specs.Prelude.{◌≡◌, ◌<◌, ◌≤◌, IfOk};
ghost use Rattle.model.specs.Steps as S;
ghost use Rattle.refusal.specs.Refusal.{answer};
ghost use Rattle.members.specs.Mask.{bits, under};
ghost use Rattle.cluster.specs.Ended.{outcome};
ghost use Rattle.cluster.specs.Layout.{at, at_pair, outline_of};
ghost use Rattle.refinement.specs.Refinement.{Full, Short, Turns};
ghost use Rattle.refinement.specs.Lent.{places_in, SameLent};

use cluster::Cluster;
use members::Board;
use refinement::LentMut;
use refusal::{Refusal, ensure};

// The replicas that b has counted above the receipts' length, members or not.
fn counted(row: &Cluster, b: Board) -> u8
    ensures { bits result ≡ under 9 (S.counted_above (at_pair row.now.acked b.number) row.now.issued) }
{
    members::gather(|x| row.issued < row.acked(b, x))
}

// Step 2: the checks of a receipt by b, in the paper's order; where they pass, the replica b and the members behind it,
// all that qualify.
fn may_commit(row: &Cluster, b: u8) -> Result<(Board, u8), Refusal>
    ensures answer { answer result ≡ S.answer_of (outline_of row.now) (S.Step.commit b) }
    ensures board { IfOk result (λ x. x.0.number ≡ b) }
    ensures behind { IfOk result (λ x. bits x.1 ≡ S.qualified (outline_of row.now) (S.Step.commit b)) }
    ensures room { IfOk result (λ x. row.now.issued < at 0 row.now.len b) }
{
    let b = Board::new(b)?;
    let view = row.view(b);
    let behind = members::both(view.members, counted(row, b));
    ensure(view.leader == b.number, Refusal::NotLeader)?;
    ensure(row.issued < row.len(b), Refusal::NothingDue)?;
    ensure(
        members::is_quorum(view.members, behind),
        Refusal::NoMajority,
    )?;
    Ok((b, behind))
}

// Step 2, a receipt by b; what is handed back are the members behind it. Inner layer: callers see to the lengths.
pub fn commit(row: &mut Cluster, p: &mut LentMut<'_>, b: u8) -> Result<u8, Refusal>
    requires { (row.old.issued ≤ 512) × Short row.old.len × Full (places_in p.old) }
    ensures same { SameLent p.old p.new }
    ensures step { Turns (S.Step.commit b) row.old (places_in p.old) (outcome result row.new) (places_in p.new) }
    ensures rest { row.new ≡ record row.old { issued = row.new.issued } }
{
    let (b, behind) = may_commit(row, b)?;
    let n = row.issued;
    let places = p.lent();
    let value = logstore::entry(places.store, b, n);
    let term = logstore::entry(places.store2, b, n);
    logstore::commit(p.list, p.list2, n, value, term);
    row.issued = n + 1;
    Ok(behind)
}
