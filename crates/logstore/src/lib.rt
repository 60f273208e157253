// The log store and the committed list: an entry read, what two logs share, a commit, the shown list. The store is a
// lent slice of 4,096 numbers, the values: replica b owns the 512 places from 512 * (b - 1), and crate logparts writes
// there. A second store and a second list have the terms (leader epochs) at the same places. Inner layer: callers see
// to it that a place is inside its log. The lengths stay in the clauses: slices of any length are lent, and rows may
// hold any numbers, until refusal 1 has looked at them (`shown::fits`); a type would be made anew of both in each step.
#![tactic(auto)]

ghost use Rattle.std.specs.Prelude.{◌≡◌, ◌<◌, ◌≤◌, length, set, get_or};
ghost use Rattle.std.specs.Mem.{type_size};
ghost use Rattle.model.specs.State.{entry, same_entry};
ghost use Rattle.model.specs.Steps as S;
ghost use Rattle.logstore.specs.Log.{pairs, place, log_of, visible_of, visible_at};

use members::Board;

// The value of the entry n of replica b's log, of a store of values; its term, of a store of terms. Inner layer:
// callers see to n.
pub fn entry<T: Copy>(store: &[T], b: Board, n: u16) -> T
    requires { (length store.now ≡ 4096) × (n < 512) }
    ensures { (d : T) → result ≡ get_or store.now (place b.number n) d }
{
    store[512 * b.index() + n as usize]
}

// Whether the logs of a and b have the same entry n: the same value and the same term. Callers see to n.
#[tactic(auto, using(crate::proofs::Laws::same_at))]
fn same(store: &[u32], terms: &[u16], a: Board, b: Board, n: u16) -> bool
    requires { (length store.now ≡ 4096) × (length terms.now ≡ 4096) × (n < 512) }
    ensures { result ≡ same_entry (get_or (pairs store.now terms.now) (place a.number n) (entry 0 0))
        (get_or (pairs store.now terms.now) (place b.number n) (entry 0 0)) }
{
    entry(store, a, n) == entry(store, b, n) && entry(terms, a, n) == entry(terms, b, n)
}

// How many first entries the logs of a and b share, at the lengths m and n. Inner layer: callers see to the lengths.
pub fn shared(store: &[u32], terms: &[u16], a: Board, m: u16, b: Board, n: u16) -> u16
    requires { (length store.now ≡ 4096) × (length terms.now ≡ 4096) × (m ≤ 512) × (n ≤ 512) }
    ensures { result ≡ length (S.shared same_entry (log_of (pairs store.now terms.now) a.number m)
        (log_of (pairs store.now terms.now) b.number n)) }
{
    let most = m.min(n);
    for i in 0..most {
        if !same(store, terms, a, b, i) {
            return i;
        }
    }
    most
}

// The committed list of n entries gets the value v under the term t, two numbers as they go to two lists. Inner layer:
// callers see to the room.
pub fn commit(list: &mut [u32], terms: &mut [u16], n: u16, v: u32, t: u16)
    requires { (n < length list.old) × (n < length terms.old) }
    ensures { (list.new ≡ set list.old n v)
        × (terms.new ≡ set terms.old n t) }
{
    list[n as usize] = v;
    terms[n as usize] = t;
}

// The shown list, a part of what is lent and no copy: the leader's log, or the committed list while no leader is named;
// of the values, or of the terms. Inner layer: callers see to the numbers. The leader is a number too, as `visible_of`
// and `visible_at` have it: 0 is none.
pub fn visible<'a, T: Copy>(
    store: &'a [T],
    committed: &'a [T],
    leader: u8,
    len: u16,
    issued: u16,
) -> &'a [T]
    requires { (length store.now ≡ 4096) × (length committed.now ≡ 512)
        × (leader ≤ 8) × (len ≤ 512) × (issued ≤ 512) }
    ensures { (result.now ≡ visible_of store.now committed.now leader len issued)
        × (result.ref_ptr ≡ visible_at (type_size T.row) store.entry.ref_ptr committed.entry.ref_ptr leader) }
{
    if leader == 0 {
        return &committed[..issued as usize];
    }
    let start = 512 * (leader - 1) as usize;
    &store[start..start + len as usize]
}
