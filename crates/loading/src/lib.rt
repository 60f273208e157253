// The chains of an image (document 02, Paper 7), read into the lent places: the logs' values and epochs into the store
// and the second store, and the receipts into the list and the second list. Error 19 changes nothing but the scratch.
// Inner layer: callers see to it that the lent places and the scratch have their lengths: clauses, since slices of any
// length are lent, and `image::load` looks at them first, for refusals 1 and 3.
#![tactic(auto)]

ghost use Rattle.std.specs.Prelude.{true, ◌≡◌, ◌*◌, ◌<◌, ◌≤◌, length};
ghost use Rattle.marks.specs.Marks.{most, room};
ghost use Rattle.chains.specs.Image.{next_of, list_of, holds};
ghost use Rattle.chains.specs.Chain.{chain_of};
ghost use Rattle.refinement.specs.Refinement.{Full};
ghost use Rattle.refinement.specs.Lent.{places_in, SameLent};
ghost use Rattle.loading.specs.Read.{Sound, Copied, Filled, Taken};

use chains::Image;
use refinement::LentMut;
use refusal::Refusal;

// The lengths of the logs, board 1's first, and how many receipts there are.
#[derive(Clone, Copy)]
pub struct Lengths {
    pub boards: [u16; 8],
    pub receipts: u16,
}

// Copies the chain that starts at first into a part for its values and one for its epochs: its length. Callers see to
// it that the chain can be copied, and to the lengths. Record 0 ends a chain, as an image has it (`next_of`).
#[tactic(auto, using(crate::proofs::Copying::inside))]
fn copy(image: Image<'_>, first: usize, part: &mut [u32], part2: &mut [u16]) -> usize
    requires { Sound image.records (chain_of (next_of image.bytes.now) first)
        × (512 ≤ length part.old) × (512 ≤ length part2.old) }
    ensures { let i = image.entry.bytes.now in
        Copied i (chain_of (next_of i) first) 0 part.old part.new part2.old part2.new result }
{
    let mut at = first;
    for len in 0..512 {
        if at == 0 {
            return len;
        }
        part[len] = image.value(at);
        part2[len] = image.term(at);
        at = image.next(at);
    }
    512
}

// Copies the chain of the list b, 0 to 7, into its 512 places of both stores: its length. Callers see to b, to it that
// the chain can be copied, and to the lengths.
fn copy_board(image: Image<'_>, b: usize, store: &mut [u32], store2: &mut [u16]) -> usize
    requires { (b < 8) × Sound image.records (list_of image.bytes.now b)
        × (length store.old ≡ 4096) × (length store2.old ≡ 4096) }
    ensures { let i = image.entry.bytes.now in
        Copied i (list_of i b) (512 * b) store.old store.new store2.old store2.new result }
{
    let from = 512 * b;
    let to = from + 512;
    copy(
        image,
        image.first(b),
        &mut store[from..to],
        &mut store2[from..to],
    )
}

// Copies the boards' chains, each into its 512 places: their lengths. Callers see to it that the image is well linked,
// and to the lengths.
fn copy_boards(image: Image<'_>, store: &mut [u32], store2: &mut [u16]) -> [u16; 8]
    requires { (holds image.records image.bytes.now ≡ true)
        × (length store.old ≡ 4096) × (length store2.old ≡ 4096) }
    ensures { Filled image.entry.bytes.now store.old store.new store2.old store2.new result }
{
    let mut len = [0u16; 8];
    for b in 0..8 {
        len[b] = copy_board(image, b, &mut *store, &mut *store2) as u16;
    }
    len
}

// Reads the nine chains of an image into the lent places: their lengths, or error 19 where it is not well linked, and
// then nothing but the scratch changes. Inner layer: callers see to the records and to the lengths.
pub fn take_chains(
    image: Image<'_>,
    p: &mut LentMut<'_>,
    scratch: &mut [u8],
) -> Result<Lengths, Refusal>
    requires { (image.records ≤ most) × Full (places_in p.old) × (room ≤ length scratch.old) }
    ensures same { SameLent p.old p.new }
    ensures taken { let i = image.entry in
        Taken (holds i.records i.bytes.now) i.bytes.now (places_in p.old) (places_in p.new)
        scratch.old scratch.new result }
{
    image.well_linked(&mut *scratch)?;
    let boards = copy_boards(image, &mut *p.store, &mut *p.store2);
    let receipts = copy(image, image.first(8), &mut *p.list, &mut *p.list2) as u16;
    Ok(Lengths { boards, receipts })
}
