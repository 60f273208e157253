// Refusal 1: whether a row's numbers are in the ranges of document 01, and the leaders that must be named are.

ghost use Rattle.std.specs.Prelude.{Bool, ◌≡◌, leb, map};
ghost use Rattle.model.specs.Members.{Members};
ghost use Rattle.model.specs.Ranges.{every, eight, is_epoch, view_ranges, leader_named, controller_leader_named, replica_ranges, in_range};
ghost use Rattle.members.specs.declared.Board.{Board};
ghost use Rattle.cluster.specs.Layout.{view_of, registry_of, controller_of, at_pair, outline_of};

use crate::{Cluster, Controller, Registry, Stage, Status, View};
use members::Board;

// Whether each of the eight passes the test. Inner layer: callers see to it that the test answers for each.
pub fn every_board<F: Fn(Board) -> bool>(test: F) -> bool
    requires { F.IsAlwaysCallable test }
    ensures { (p : Members) → ((b : Board) (r : Bool) → F.post test b r → r ≡ p b.number) → result ≡ every (eight p) }
{
    for i in 0..8 {
        if !test(Board::at(i)) {
            return false;
        }
    }
    true
}

// An epoch, 1 to 4,000.
pub fn epoch(e: u16) -> bool
    ensures { result ≡ is_epoch e }
{
    (1..=4000).contains(&e)
}

impl View {
    // Whether its numbers are in range; its members may be any set.
    pub fn in_range(self) -> bool
        ensures { result ≡ every (view_ranges (view_of self)) }
    {
        epoch(self.epoch) && epoch(self.term) && self.leader <= 8
    }
}

impl Registry {
    // It names a leader unless it is choosing.
    pub fn names_leader(self) -> bool
        ensures { result ≡ leader_named (registry_of self) }
    {
        self.status == Status::Choosing || self.view.leader != 0
    }
}

impl Controller {
    // It has a leader at stage leader and at stage boards.
    pub fn names_leader(self) -> bool
        ensures { result ≡ controller_leader_named (controller_of self) }
    {
        self.stage == Stage::Idle || self.stage == Stage::Choosing || self.view.leader != 0
    }
}

// Whether each count of a part is 512 at most. No `all`, which ends early: so eight are tested at a time.
fn few(part: &[u16]) -> bool
    ensures { result ≡ every (map (λ n. leb n 512) part.now) }
{
    part.iter().fold(true, |ok, n| ok & (*n <= 512))
}

// The counts of a.
fn counts(row: &Cluster, a: Board) -> bool
    ensures { result ≡ every (eight (λ x. leb (at_pair row.now.acked a.number x) 512)) }
{
    let from = 8 * a.index();
    few(&row.acked[from..from + 8])
}

// What is held by and heard of the replica b.
fn replica_in(row: &Cluster, b: Board) -> bool
    ensures { result ≡ every (replica_ranges (outline_of row.now) b.number) }
{
    let i = b.index();
    row.view(b).in_range()
        && epoch(row.joined(b))
        && row.len(b) <= 512
        && row.controller.heard[i] <= 513
        && row.controller.joined[i] <= 4000
        && counts(row, b)
}

// Of all replicas.
fn replicas_in(row: &Cluster) -> bool
    ensures { result ≡ every (eight (λ b. every (replica_ranges (outline_of row.now) b))) }
{
    every_board(|b| replica_in(row, b))
}

// Refusal 1 of a row's numbers; that of its kept epochs is `kept`.
pub fn in_range(row: &Cluster) -> bool
    ensures { result ≡ in_range (outline_of row.now) }
{
    row.registry.view.in_range()
        && row.controller.view.in_range()
        && row.registry.names_leader()
        && row.controller.names_leader()
        && row.issued <= 512
        && replicas_in(row)
}
