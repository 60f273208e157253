// The chains of an image (document 02, Paper 7): the first record of a list, a record's next, epoch and value; error
// 19, found by walking all nine chains over a scratch of marks; and the records' part of error 18. A scratch's length
// stays in the clauses: one of any length is lent, by C too, and `image::load` looks at it first, for refusal 3.
#![tactic(auto)]

ghost use Rattle.std.specs.Prelude.{◌≡◌, ◌+◌, ◌*◌, ◌<◌, ◌≤◌, length, replicate};
ghost use Rattle.marks.specs.Marks.{none, most, room, marked};
ghost use Rattle.chains.specs.Image.{next_of, epoch_of, value_of, first_of, epochs_fit, holds};
ghost use Rattle.chains.specs.Chain.{chain_of, Walked, linking};

use refusal::{Refusal, ensure};

// Bytes with the head of an image, 258 bytes, and at least 8 for each of its records. That there are no more, and how
// many records there may be, is error 17.
#[derive(Clone, Copy)]
pub struct Image<'a> {
    pub bytes: &'a [u8],
    pub records: usize,
    ghost within: { 8 * records + 258 ≤ length bytes.now },
}

impl<'a> Image<'a> {
    // The record after the record k, by number, and 0 after the last: an image has it so (`next_of`). Inner layer:
    // callers see to k.
    pub fn next(self, k: usize) -> usize
        requires { k ≤ self.records }
        ensures { result ≡ next_of self.entry.bytes.now k }
    {
        fields::two_at(self.bytes, 8 * k + 256) as usize
    }

    // The epoch of the record k. Inner layer: callers see to k.
    pub fn term(self, k: usize) -> u16
        requires { k ≤ self.records }
        ensures { result ≡ epoch_of self.entry.bytes.now k }
    {
        fields::two_at(self.bytes, 8 * k + 254)
    }

    // The value of the record k. Inner layer: callers see to k.
    pub fn value(self, k: usize) -> u32
        requires { k ≤ self.records }
        ensures { result ≡ value_of self.entry.bytes.now k }
    {
        fields::four_at(self.bytes, 8 * k + 250)
    }

    // The first record of the list b, 0 to 7 for the boards, 8 for the receipts. Inner layer: callers see to b.
    // A list is named by number, as in `first_of`.
    pub fn first(self, b: usize) -> usize
        requires { b < 9 }
        ensures { result ≡ first_of self.entry.bytes.now b }
    {
        let at = if b == 8 { 256 } else { 26 * b + 72 };
        fields::two_at(self.bytes, at) as usize
    }

    // Walks the chain that starts at first and marks its records: its length, or error 19 where it points past the
    // last record, passes 512 entries, or meets a record again. Callers see to the records and to the scratch.
    fn walk(self, first: usize, scratch: &mut [u8]) -> Result<usize, Refusal>
        requires { (self.records ≤ most) × (room ≤ length scratch.old) }
        ensures { let image = self.entry in Walked image.records (chain_of (next_of image.bytes.now) first)
            (marked scratch.old) (marked scratch.new) result }
    {
        let mut at = first;
        for len in 0..513 {
            if at == 0 {
                return Ok(len);
            }
            ensure(at <= self.records, Refusal::ImageLinks)?;
            ensure(!marks::is_marked(&*scratch, at), Refusal::ImageLinks)?;
            marks::mark(&mut *scratch, at);
            at = self.next(at);
        }
        Err(Refusal::ImageLinks)
    }

    // Walks all nine chains: error 19 where they are not well linked. Callers see to the records and to the
    // scratch, and that nothing is marked.
    fn walk_all(self, scratch: &mut [u8]) -> Result<(), Refusal>
        requires { (self.records ≤ most) × (room ≤ length scratch.old) × (marked scratch.old ≡ none) }
        ensures { result ≡ linking (holds self.entry.records self.entry.bytes.now) }
    {
        let mut total = 0;
        for b in 0..9 {
            total += self.walk(self.first(b), &mut *scratch)?;
        }
        ensure(total == self.records, Refusal::ImageLinks)
    }

    // Error 19 of an image that is not well linked. "The whole scratch ends as zeros." Inner layer: callers see to the
    // records and to the scratch.
    pub fn well_linked(self, scratch: &mut [u8]) -> Result<(), Refusal>
        requires { (self.records ≤ most) × (room ≤ length scratch.old) }
        ensures answer { result ≡ linking (holds self.entry.records self.entry.bytes.now) }
        ensures scratch { scratch.new ≡ replicate (length scratch.old) 0 }
    {
        marks::clear(&mut *scratch);
        let linked = self.walk_all(&mut *scratch);
        marks::clear(&mut *scratch);
        linked
    }

    // Whether the epoch of every record, met or not, is 1 to 4,000: a part of error 18.
    pub fn epochs_fit(self) -> bool
        ensures { result ≡ epochs_fit self.entry.records self.entry.bytes.now }
    {
        (1..self.records + 1).all(|k| cluster::ranges::epoch(self.term(k)))
    }
}
