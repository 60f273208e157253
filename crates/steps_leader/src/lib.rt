// The steps of a leader but its receipt: append (1), acknowledge (9), on a row and the lent places. Its `may_` function
// makes a step's checks, in the paper's order. Inner layer: callers see to it that the lent places have their lengths
// and that no log is longer than 512.
// No invariant of row or places says so: `shown::fits` looks at those of any lengths, for refusal 1, and a type that says
// it would be made anew of both in each step, and taken apart for what changes.
#![tactic(auto)]

ghost use Rattle.std.specs.Prelude.{◌≡◌, List, ℕ, ◌<◌, ◌≤◌, IfOk, length};
ghost use Rattle.model.specs.Steps as S;
ghost use Rattle.refusal.specs.Refusal.{answer};
ghost use Rattle.cluster.specs.Layout.{at, outline_of};
ghost use Rattle.refinement.specs.Refinement.{Places, lent, Full, Short, Leaves};
ghost use Rattle.refinement.specs.Lent.{SameLent};

use cluster::Cluster;
use members::Board;
use refinement::LentMut;
use refusal::{Refusal, ensure};

// Step 1: the checks of b's append, and the replica b where they pass.
fn may_append(row: &Cluster, b: u8) -> Result<Board, Refusal>
    ensures answer { (value : ℕ) → answer result ≡ S.answer_of (outline_of row.now) (S.Step.append b value) }
    ensures board { IfOk result (λ x. x.number ≡ b) }
    ensures room { IfOk result (λ x. at 0 row.now.len b < 512) }
{
    let b = Board::new(b)?;
    ensure(row.view(b).leader == b.number, Refusal::NotLeader)?;
    ensure(row.len(b) < 512, Refusal::LogFull)?;
    Ok(b)
}

// Step 1, b appends the value. Inner layer: callers see to the lengths.
pub fn append(row: &mut Cluster, p: &mut LentMut<'_>, b: u8, value: u32) -> Result<(), Refusal>
    requires { Short row.old.len × (length p.old.store.now ≡ 4096) × (length p.old.store2.now ≡ 4096) }
    ensures same { SameLent p.old p.new }
    ensures step { (issued : ℕ) (list list2 : List ℕ) → issued ≤ 512
        → Full (lent p.old.store.now p.old.store2.now list list2)
        → Leaves (S.Step.append b value)
        (record row.old { issued = issued }) (lent p.old.store.now p.old.store2.now list list2)
        (answer result) 0
        (record row.new { issued = issued }) (lent p.new.store.now p.new.store2.now list list2) }
    ensures rest { row.new ≡ record row.old { acked = row.new.acked; len = row.new.len } }
    ensures lists { (p.new.list.now ≡ p.old.list.now) × (p.new.list2.now ≡ p.old.list2.now) }
{
    let b = may_append(row, b)?;
    let n = row.len(b);
    logparts::append_entry(p.store, p.store2, b, n, value, row.view(b).term);
    let i = b.index();
    row.len[i] = n + 1;
    row.acked[9 * i] = n + 1; // b's count of itself.
    Ok(())
}

// Step 9: the checks of a's count of b, and the replicas a and b where they pass.
fn may_acknowledge(row: &Cluster, a: u8, b: u8) -> Result<(Board, Board), Refusal>
    ensures answer { answer result ≡ S.answer_of (outline_of row.now) (S.Step.acknowledge a b) }
    ensures boards { IfOk result (λ x. (x.0.number ≡ a) × (x.1.number ≡ b)) }
{
    let a = Board::new(a)?;
    let b = Board::new(b)?;
    ensure(a != b, Refusal::Invalid)?;
    let (own, other) = (row.view(a), row.view(b));
    ensure(own.leader == a.number, Refusal::NotLeader)?;
    ensure(members::has(other.members, b), Refusal::Membership)?;
    ensure(own.term == other.term, Refusal::TermsDiffer)?;
    ensure(row.joined(b) == other.term, Refusal::Joining)?;
    ensure(row.acked(a, b) < row.len(b), Refusal::NothingDue)?;
    Ok((a, b))
}

// Step 9, a acknowledges b. Inner layer: callers see to the lengths.
pub fn acknowledge(row: &mut Cluster, a: u8, b: u8) -> Result<(), Refusal>
    requires { Short row.old.len }
    ensures step { (issued : ℕ) (p : Places) → issued ≤ 512 → Full p
        → Leaves (S.Step.acknowledge a b)
        (record row.old { issued = issued }) p (answer result) 0 (record row.new { issued = issued }) p }
    ensures rest { row.new ≡ record row.old { acked = row.new.acked } }
{
    let (a, b) = may_acknowledge(row, a, b)?;
    row.acked[8 * a.index() + b.index()] = row.len(b);
    Ok(())
}
