// Refusal 1 of a row and the lent places, and the shown list: its values and its terms. None of the calls asks anything
// of its caller.
#![tactic(auto)]

ghost use Rattle.std.specs.Prelude.{◌≡◌, true, length};
ghost use Rattle.std.specs.Mem.{type_size};
ghost use Rattle.cluster.specs.Layout.{at};
ghost use Rattle.refinement.specs.Refinement.{Shape};
ghost use Rattle.refinement.specs.Lent.{places_of};
ghost use Rattle.shown.specs.Shown.{lengths_fit, valid, shown_part, shown_values, shown_terms, shown_at};
ghost use Rattle.shown.specs.Refusals.{RefusalsHold};

use cluster::Cluster;
use members::Board;
use refinement::Lent;

// Whether the lent places have their lengths.
pub fn lengths(p: Lent<'_, '_>) -> bool
    ensures { result ≡ lengths_fit (places_of p.entry) }
{
    p.store.len() == 4096 && p.store2.len() == 4096 && p.list.len() == 512 && p.list2.len() == 512
}

// Whether refusal 1 lets the row and the lent places through; and what the row's type fixes, for the callers' proofs.
pub fn fits(row: &Cluster, p: Lent<'_, '_>) -> bool
    ensures test { result ≡ valid row.now (places_of p.entry) }
    ensures shape { Shape row.now }
{
    refinement::typed(*row);
    if !lengths(p) {
        return false;
    }
    cluster::ranges::in_range(row) && kept::in_range(row, p.store2, p.list2)
}

// How many entries the log of the registry's leader has; 0 where none is named, as `at` has it of the leader's number.
fn leader_len(row: &Cluster) -> u16
    ensures { result ≡ at 0 row.now.len row.now.registry.view.leader }
{
    match Board::new(row.registry.view.leader) {
        Ok(b) => row.len(b),
        Err(_) => 0,
    }
}

// The shown part of a store and a list of numbers, the values or the terms; an empty part of the list where refusal 1
// turns the row or the lent places away. Callers see to it that these are lent places.
fn part<'a, T: Copy>(row: &Cluster, p: Lent<'_, '_>, store: &'a [T], list: &'a [T]) -> &'a [T]
    requires { valid row.now (places_of p) ≡ true → (length store.now ≡ 4096) × (length list.now ≡ 512) }
    ensures part { result.now ≡ shown_part row.now (places_of p.entry) store.now list.now }
    ensures place { result.ref_ptr ≡ shown_at (type_size T.row) row.now (places_of p.entry)
        store.entry.ref_ptr list.entry.ref_ptr }
{
    if !fits(row, p) {
        return &list[..0];
    }
    let n = leader_len(row);
    logstore::visible(store, list, row.registry.view.leader, n, row.issued)
}

// The shown list, its values: a part of the store or of the list, not a copy (the promise says where it begins); an
// empty part of the list where refusal 1 turns the row or the lent places away.
pub fn visible<'a>(row: &Cluster, p: Lent<'a, '_>) -> &'a [u32]
    ensures values { result.now ≡ shown_values row.now (places_of p.entry) }
    ensures place { result.ref_ptr ≡ shown_at 4 row.now (places_of p.entry)
        p.entry.store.ref_ptr p.entry.list.ref_ptr }
{
    part(row, p, p.store, p.list)
}

// The like part of the terms, in the same way: of the second store or of the second list. Two names of `part`: README
// and docs/ name both as calls.
pub fn visible_terms<'a>(row: &Cluster, p: Lent<'_, 'a>) -> &'a [u16]
    ensures terms { result.now ≡ shown_terms row.now (places_of p.entry) }
    ensures place { result.ref_ptr ≡ shown_at 2 row.now (places_of p.entry)
        p.entry.store2.ref_ptr p.entry.list2.ref_ptr }
{
    part(row, p, p.store2, p.list2)
}

// Refusal 1 of kept epochs and of the second pair's lengths, on rows and places worked out by hand. By the definitions:
// nothing to run.
pub fn refusals()
    ensures { RefusalsHold }
{}
