// Refusal 1 of a row for its kept epochs (document 02, Paper 4): the term of each entry inside a log or the receipts is
// 1 to 4,000. Places past a length are not looked at. Inner layer: callers see to it that the second store and the
// second list have their lengths, and that no log and no list of receipts is longer than 512: clauses, since it is
// `shown::fits` that looks at these lengths, for refusal 1, and asks here last.
#![tactic(auto)]

ghost use Rattle.std.specs.Prelude.{◌≡◌, List, map, ℕ, ◌≤◌, length};
ghost use Rattle.model.specs.Ranges.{every, eight, is_epoch, kept_in_range};
ghost use Rattle.logstore.specs.Log.{log_of};
ghost use Rattle.cluster.specs.Layout.{at};
ghost use Rattle.refinement.specs.Refinement.{lent, Full, abs, Short};

use cluster::Cluster;
use cluster::ranges::{epoch, every_board};
use members::Board;

// Whether each number of a part is an epoch. No `all`, which ends early: so many are tested at a time, in a sixth of the
// instructions.
fn epochs(part: &[u16]) -> bool
    ensures { result ≡ every (map is_epoch part.now) }
{
    part.iter().fold(true, |ok, t| ok & epoch(*t))
}

// Whether the n terms from the place of replica b's first are epochs.
fn log(terms: &[u16], b: Board, n: u16) -> bool
    requires { (length terms.now ≡ 4096) × (n ≤ 512) }
    ensures { result ≡ every (map is_epoch (log_of terms.now b.number n)) }
{
    let start = 512 * b.index();
    epochs(&terms[start..start + n as usize])
}

// Whether those of all logs are.
fn logs(terms: &[u16], row: &Cluster) -> bool
    requires { (length terms.now ≡ 4096) × Short row.now.len }
    ensures { result ≡ every (eight (λ b. every (map is_epoch (log_of terms.now b (at 0 row.now.len b))))) }
{
    every_board(|b| log(terms, b, row.len(b)))
}

// Whether all kept epochs of a row, of its logs and of its receipts, are 1 to 4,000, whatever values stand beside them.
// Inner layer: callers see to the lengths.
pub fn in_range(row: &Cluster, store2: &[u16], list2: &[u16]) -> bool
    requires { (length store2.now ≡ 4096) × (length list2.now ≡ 512) × Short row.now.len × (row.now.issued ≤ 512) }
    ensures { (store list : List ℕ) → Full (lent store store2.now list list2.now)
        → result ≡ kept_in_range (abs row.now (lent store store2.now list list2.now)) }
{
    epochs(&list2[..row.issued as usize]) && logs(store2, row)
}
