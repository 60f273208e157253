// The lists of a row written as chains of records (document 02, Paper 7): the records, and where each chain begins.
// Inner layer: callers see to it that a page has room for the text, and to the lengths: clauses, since lent places of
// any length come in, and a row with any numbers, and `shown::fits` looks at them first, for refusal 1.
#![tactic(auto, using(text::proofs::Laws::pages))]

ghost use Rattle.std.specs.Prelude.{cond, [], ◌∷◌, ◌++◌, ◌≡◌, ℕ, ◌+◌, ◌<◌, ◌≤◌, eqb, ltb, length};
ghost use Rattle.logstore.specs.Log.{pairs};
ghost use Rattle.cluster.specs.Layout.{at};
ghost use Rattle.refinement.specs.Refinement.{Full, Short};
ghost use Rattle.refinement.specs.Lent.{places_of};
ghost use Rattle.text.specs.Text.{Puts, HasRoom};
ghost use Rattle.saving.specs.Saved.{record_of, record_bytes, bytes_of, records_for, records_all, lists_in, sum_by, firsts_by};

use cluster::Cluster;
use refinement::Lent;
use text::Page;

// How many records the nine lists make, by their lengths. Inner layer: callers see to these.
pub fn total(len: &[u16; 8], count: u16) -> usize
    requires { (b : ℕ) → at 0 len.now b ≤ 512 }
    ensures { result ≡ sum_by (len.now ++ (count ∷ [])) }
{
    len.iter().map(|n| *n as usize).sum::<usize>() + count as usize
}

// The first record of a list of n entries that is numbered from k on: 0 of an empty one.
fn start(k: u16, n: u16) -> u16
    ensures { result ≡ cond (eqb n 0) 0 k }
{
    if n == 0 { 0 } else { k }
}

// The first records of the nine lists, by their lengths. Inner layer: callers see to these.
pub fn firsts(len: &[u16; 8], count: u16) -> [u16; 9]
    requires { (b : ℕ) → at 0 len.now b ≤ 512 }
    ensures { result ≡ firsts_by 1 (len.now ++ (count ∷ [])) }
{
    let mut all = [0u16; 9];
    let mut k: u16 = 1;
    for i in 0..8 {
        all[i] = start(k, len[i]);
        k += len[i];
    }
    all[8] = start(k, count);
    all
}

// Writes a record.
fn put_record(page: &mut Page<'_>, value: u32, term: u16, next: u16)
    requires { HasRoom page.old (record_bytes (record_of value term next)) }
    ensures { Puts page.old (record_bytes (record_of value term next)) page.new }
{
    page.put_bytes(&value.to_le_bytes());
    page.put_bytes(&term.to_le_bytes());
    page.put_bytes(&next.to_le_bytes());
}

// What the record k has for next, if it is the entry i of n: k + 1, and 0 of the last. Inner layer: callers see to k.
fn following(k: usize, i: usize, n: usize) -> u16
    requires { (k < 4609) × (i < n) × (n ≤ 512) }
    ensures { result ≡ cond (ltb (i + 1) n) (k + 1) 0 }
{
    if i + 1 < n { (k + 1) as u16 } else { 0 }
}

// Writes a list, its values and its terms, as records from the number k on. By the index, which says too what follows a
// record. Inner layer: callers see to the lengths, which two slices of `Lent` do not share by their type.
fn put_chain(page: &mut Page<'_>, k: usize, values: &[u32], terms: &[u16])
    requires { (length values.now ≤ 512) × (length values.now ≡ length terms.now) × (k + length values.now ≤ 4609)
        × HasRoom page.old (bytes_of (records_for k (pairs values.now terms.now))) }
    ensures { Puts page.old (bytes_of (records_for k (pairs values.now terms.now))) page.new }
{
    let n = values.len();
    for i in 0..n {
        put_record(page, values[i], terms[i], following(k + i, i, n));
    }
}

// Writes the records of the nine lists, board 1's log first and the receipts last. Inner layer: callers see to the
// lengths.
pub fn put_chains(page: &mut Page<'_>, row: &Cluster, p: Lent<'_, '_>)
    requires { Full (places_of p) × Short row.now.len × (row.now.issued ≤ 512)
        × HasRoom page.old (bytes_of (records_all 1 (lists_in row.now (places_of p)))) }
    ensures { Puts page.old (bytes_of (records_all 1 (lists_in row.now (places_of p.entry)))) page.new }
{
    let mut k: usize = 1;
    for i in 0..8 {
        let n = row.len[i] as usize;
        let from = 512 * i;
        let to = from + n;
        put_chain(page, k, &p.store[from..to], &p.store2[from..to]);
        k += n;
    }
    let n = row.issued as usize;
    put_chain(page, k, &p.list[..n], &p.list2[..n]);
}
