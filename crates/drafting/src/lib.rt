// The list that leads a row to normal (document 02, Paper 10), of its pieces: the choosing part, the waiting part, the
// whole. Inner layer: the places are written, so callers lend copies, or places that they have done with.
#![tactic(auto)]

ghost use Rattle.std.specs.Prelude.{◌≡◌, ◌+◌, ◌≤◌, length};
ghost use Rattle.model.specs.State.{entries};
ghost use Rattle.members.specs.Mask.{bits};
ghost use Rattle.cluster.specs.Layout.{status_of};
ghost use Rattle.refinement.specs.Refinement.{abs};
ghost use Rattle.refinement.specs.Lent.{places_in};
ghost use Rattle.recovery.specs.Plan as P;
ghost use Rattle.pieces.specs.Fitting.{Fit};
ghost use Rattle.pieces.specs.Pieces.{Moves};
ghost use Rattle.delivery.specs.Planned.{planned};
ghost use Rattle.delivery.specs.Delivery.{Gives};

use cluster::{Cluster, Status};
use members::Board;
use orders::{Order, Orders};
use pieces::Sketch;
use refinement::LentMut;
use refusal::Refusal;

// The steps of the two parts, and the refusal by which the controller's news is left out, as the papers number them.
const REFRESH_CONTROLLER: u8 = 10;

const SET_NORMAL: u8 = 13;

const INSTALL: u8 = 15;

const NOTHING_DUE: u8 = 12;

// Whether b is in the set, whatever b is.
fn contains(m: u8, b: u8) -> bool
    ensures { result ≡ bits m b }
{
    match Board::new(b) {
        Ok(b) => members::has(m, b),
        Err(_) => false,
    }
}

// The loops of the two parts stay two: as one, over a closure, they would need its clauses beside theirs, and they have
// five lines each.

// If choosing: from controller news to install.
fn choosing_part(s: &mut Sketch<'_>)
    requires { s.old.orders.count + 18 ≤ length s.old.orders.list.now }
    ensures { Moves 18 (P.choosing_part entries) s.old s.new }
{
    let m = s.row.registry.view.members;
    let q = ranking::first(m, members::majority(m));
    s.put_unless(REFRESH_CONTROLLER, 0, NOTHING_DUE);
    for i in 0..8 {
        let b = Board::at(i);
        if members::has(q, b) {
            s.hears(b.number);
        }
    }
    let b = ranking::highest(&s.row.controller, q);
    s.put(INSTALL, b);
}

// If waiting: from controller news to set normal.
fn waiting_part(s: &mut Sketch<'_>)
    requires { s.old.orders.count + 36 ≤ length s.old.orders.list.now }
    ensures { Moves 36 (P.waiting_part entries) s.old s.new }
{
    let v = s.row.registry.view;
    let l = v.leader;
    let q = ranking::first(
        members::without(v.members, l),
        members::majority(v.members) - 1,
    );
    s.sound &= contains(v.members, l);
    s.put_unless(REFRESH_CONTROLLER, 0, NOTHING_DUE);
    s.informs(l, l);
    s.reads_leader();
    for i in 0..8 {
        let b = Board::at(i);
        if members::has(q, b) {
            s.follows(l, b.number);
        }
    }
    s.put(SET_NORMAL, 0);
}

// The whole list: "none if normal. If choosing: ..; then as waiting."
fn draft(s: &mut Sketch<'_>)
    requires { s.old.orders.count + 54 ≤ length s.old.orders.list.now }
    ensures { Moves 54 (P.draft entries (status_of s.old.row.registry.status)) s.old s.new }
{
    match s.row.registry.status {
        Status::Normal => {}
        Status::Waiting => waiting_part(&mut *s),
        Status::Choosing => {
            choosing_part(&mut *s);
            waiting_part(&mut *s);
        }
    }
}

// The list of a row, given out in a slice of at least 16,512 bytes, and how many records it has; refusal 20 where there
// is none. Inner layer: callers see to the row, the places and that room; the places are left as the steps of the list
// leave them. (The room stays a clause: a slice of any length is lent, by C too, and refusal 3 comes before the list.)
pub fn plan(row: &Cluster, places: LentMut<'_>, out: &mut [u8]) -> Result<usize, Refusal>
    requires fit { Fit row.now (places_in places) }
    requires room { 16512 ≤ length out.old }
    ensures { Gives (P.plan entries (abs row.now (places_in places.entry))) out.old (planned result) out.new }
{
    let none = Order {
        step: 0,
        board: 0,
        times: 0,
    };
    // As many as a list has at most: 18 in the choosing part, 36 in the waiting part. An array, as no heap is used.
    let mut list = [none; 54];
    let mut s = Sketch {
        row: *row,
        places,
        orders: Orders::new(&mut list),
        sound: true,
    };
    draft(&mut s);
    delivery::deliver(s.sound, s.orders.kept(), &mut *out)
}
