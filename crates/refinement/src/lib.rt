// A row with the lent places, as a state of the model: definitions and laws; and the places as they are lent.
#![tactic(auto)]

ghost use Rattle.std.specs.Prelude.{◌≡◌};
ghost use Rattle.refinement.specs.Refinement.{Shape};
ghost use Rattle.refinement.specs.Lent.{places_of, places_in};

use cluster::Cluster;

// The lent places, to be read: the log store and the receipts, values and terms. Four slices: document 02, Paper 4, has
// a second store and a second list beside the first ones, and the hub lends them of any length. Two lifetimes: who
// holds shown values may write terms.
#[derive(Clone, Copy)]
pub struct Lent<'a, 'b> {
    pub store: &'a [u32],
    pub store2: &'b [u16],
    pub list: &'a [u32],
    pub list2: &'b [u16],
}

// The lent places, to be written.
#[derive(Drop)]
pub struct LentMut<'a> {
    pub store: &'a mut [u32],
    pub store2: &'a mut [u16],
    pub list: &'a mut [u32],
    pub list2: &'a mut [u16],
}

impl<'a> LentMut<'a> {
    // The same places, to be read.
    pub fn lent(&self) -> Lent<'_, '_>
        ensures { places_of result ≡ places_in self.now }
    {
        Lent {
            store: &*self.store,
            store2: &*self.store2,
            list: &*self.list,
            list2: &*self.list2,
        }
    }
}

// What a row's type fixes, for a caller's proof. By value: a reference tells nothing of lengths. Nothing to run.
pub fn typed(row: Cluster)
    ensures { Shape row }
{}
