// A replica's own parts of the lent log stores: the 512 places from 512 * (b - 1) of the values and of the terms, lent
// on to append and receive (document 01: "each board writes only its own 512 places of the log store"). Inner layer:
// callers see to it that the log has room. The stores' lengths stay in the clauses, as in `logstore`; a value and its
// term stay two numbers, as they go to two stores.
#![tactic(auto)]

ghost use Rattle.std.specs.Prelude.{◌≡◌, ◌<◌, length, set, get_or};
ghost use Rattle.logstore.specs.Log.{place};

use members::Board;

// A replica's own parts get a new entry at the end of its log. Inner layer: callers see to the place.
pub fn append(part: &mut [u32], terms: &mut [u16], at: usize, v: u32, t: u16)
    requires { (at < length part.old) × (at < length terms.old) }
    ensures { (part.new ≡ set part.old at v)
        × (terms.new ≡ set terms.old at t) }
{
    part[at] = v;
    terms[at] = t;
}

// A replica's own parts get an entry of its leader's log at the end of its own. A function of its own for a write that
// is append's, since document 01 names both as what a part is lent on to. Inner layer: callers see to the place.
pub fn receive(part: &mut [u32], terms: &mut [u16], at: usize, v: u32, t: u16)
    requires { (at < length part.old) × (at < length terms.old) }
    ensures { (part.new ≡ set part.old at v)
        × (terms.new ≡ set terms.old at t) }
{
    append(part, terms, at, v, t);
}

// Replica b's log of len entries gets the value v under the term t; b's parts alone are lent on. Inner layer: callers
// see to the room.
#[tactic(auto, using(logstore::proofs::Laws::part_set))]
pub fn append_entry(store: &mut [u32], terms: &mut [u16], b: Board, len: u16, v: u32, t: u16)
    requires { (length store.old ≡ 4096) × (length terms.old ≡ 4096) × (len < 512) }
    ensures { (store.new ≡ set store.old (place b.number len) v)
        × (terms.new ≡ set terms.old (place b.number len) t) }
{
    let part = 512 * b.index();
    append(
        &mut store[part..part + 512],
        &mut terms[part..part + 512],
        len as usize,
        v,
        t,
    );
}

// Replica b's log of len entries gets the leader's next one; b's parts alone are lent on. Inner layer: callers see to
// the room.
#[tactic(auto, using(logstore::proofs::Laws::part_set))]
pub fn receive_entry(store: &mut [u32], terms: &mut [u16], b: Board, leader: Board, len: u16)
    requires { (length store.old ≡ 4096) × (length terms.old ≡ 4096) × (len < 512) }
    ensures { (store.new
        ≡ set store.old (place b.number len) (get_or store.old (place leader.number len) 0))
        × (terms.new
        ≡ set terms.old (place b.number len) (get_or terms.old (place leader.number len) 0)) }
{
    let v = logstore::entry(store, leader, len);
    let t = logstore::entry(terms, leader, len);
    let own = 512 * b.index();
    receive(
        &mut store[own..own + 512],
        &mut terms[own..own + 512],
        len as usize,
        v,
        t,
    );
}
