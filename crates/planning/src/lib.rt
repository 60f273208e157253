// The call that gives the records that lead a row to normal, and their number (document 02, Paper 10). It asks nothing
// of its caller, and row and places (the two stores, the receipts and their epochs) are only read: the steps of the
// list are tried on copies, 27,648 bytes in the call's own stack frame.
#![tactic(auto)]

ghost use Rattle.refinement.specs.Lent.{places_of};
ghost use Rattle.delivery.specs.Planned.{planned};
ghost use Rattle.planning.specs.Planning.{Plans, CallsRecover, FollowsRecover};

use cluster::Cluster;
use refinement::{Lent, LentMut};
use refusal::{Refusal, ensure};

// After every list of calls, those of `hub` and a row taken up from its image among them, with the registry's epoch at
// most 3,998, the call gives a list that leads to normal. By the definitions: nothing to run.
pub fn claim()
    ensures { CallsRecover × FollowsRecover }
{}

// The records that lead the row to normal, from the start of a slice of at least 16,512 bytes, and their number.
// Refusal 1 of a row or places that it turns away, then 3 for a shorter slice, then 20 where there is no list: the slice
// is as it was then.
pub fn plan(row: &Cluster, p: Lent<'_, '_>, out: &mut [u8]) -> Result<usize, Refusal>
    ensures { Plans row.now (places_of p.entry) out.old (planned result) out.new }
{
    ensure(shown::fits(row, p), Refusal::Invalid)?;
    ensure(16512 <= out.len(), Refusal::Room)?;
    // Copies made one by one, as the places differ in type and length and no heap is used.
    let mut store = [0u32; 4096];
    let mut store2 = [0u16; 4096];
    let mut list = [0u32; 512];
    let mut list2 = [0u16; 512];
    store.copy_from_slice(p.store);
    store2.copy_from_slice(p.store2);
    list.copy_from_slice(p.list);
    list2.copy_from_slice(p.list2);
    let copies = LentMut {
        store: &mut store,
        store2: &mut store2,
        list: &mut list,
        list2: &mut list2,
    };
    drafting::plan(row, copies, &mut *out)
}
