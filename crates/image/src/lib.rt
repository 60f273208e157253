// The image of a row (document 02, Paper 7): written into a lent slice, and taken up again. None of the public calls
// asks anything of its caller. Row and places stay two parameters, as in `steps`.
#![tactic(auto)]

ghost use Rattle.std.specs.Prelude.{true, cond, ◌≡◌, ◌+◌, ◌*◌, ◌≤◌, Ok, Err, IfOk, length};
ghost use Rattle.refusal.specs.Refusal.{answer, returned};
ghost use Rattle.refusal.specs.declared.Refusal.TheVariants.{ImageLength, ImageNumber};
ghost use Rattle.refinement.specs.Refinement.{Shape};
ghost use Rattle.refinement.specs.Lent.{places_of, places_in, SameLent};
ghost use Rattle.marks.specs.Marks.{most};
ghost use Rattle.shown.specs.Shown.{valid};
ghost use Rattle.image.specs.Image.{records_in, length_fits, numbers_fit};
ghost use Rattle.image.specs.Keeping.{saved, Saves, loaded, Loads, ReadsBack, Resumes, ImagesTell, TakenFits, PastLeft};

use chains::Image;
use cluster::Cluster;
use head::Head;
use refinement::{Lent, LentMut};
use refusal::{Refusal, ensure};
use text::Page;

// A written row reads back as the same row, by the definitions and by the calls; an image has 258 to 37,122 bytes;
// every image that is taken gives a row that refusal 1 lets through; no place past a list's length changes. Nothing to
// run.
pub fn claim()
    ensures { ReadsBack × Resumes × ImagesTell × TakenFits × PastLeft }
{}

// Writes the image of a row into a slice: the image's length, or refusal 1 for what every call refuses with 1, then 3
// for a slice that is shorter than this image; both leave the slice as it was.
pub fn save(row: &Cluster, p: Lent<'_, '_>, out: &mut [u8]) -> Result<usize, Refusal>
    ensures answer { result ≡ saved row.now (places_of p.entry) out.old }
    ensures within { IfOk result (λ n. n ≤ length out.old) }
    ensures saves { Saves row.now (places_of p.entry) out.old (returned result) out.new }
{
    ensure(shown::fits(row, p), Refusal::Invalid)?;
    let n = 258 + 8 * saving::total(&row.len, row.issued);
    ensure(n <= out.len(), Refusal::Room)?;
    let mut page = Page::new(&mut *out);
    heading::put_head(&mut page, row, &saving::firsts(&row.len, row.issued));
    saving::put_chains(&mut page, row, p);
    Ok(n)
}

// An image that error 17 lets through, with its records counted.
fn sized(bytes: &[u8]) -> Result<Image<'_>, Refusal>
    ensures answer { answer result ≡ cond (length_fits bytes.now) 0 17 }
    ensures image { IfOk result (λ x. (x.bytes.now ≡ bytes.now) × (x.records ≡ records_in bytes.now)) }
    ensures whole { IfOk result (λ x. length x.bytes.now ≡ 8 * x.records + 258) }
    ensures few { IfOk result (λ x. x.records ≤ most) }
{
    let n = bytes.len();
    ensure(n >= 258, Refusal::ImageLength)?;
    let records = (n - 258) / 8;
    ensure(
        n == 8 * records + 258 && records <= 4608,
        Refusal::ImageLength,
    )?;
    Ok(Image { bytes, records })
}

// Whether error 18 lets an image through. Callers see to the length.
fn numbers_fit(image: Image<'_>) -> bool
    requires { length image.bytes.now ≡ 8 * image.records + 258 }
    ensures { result ≡ numbers_fit image.entry.bytes.now }
{
    let head = Head { bytes: image.bytes };
    head.codes_fit() && cluster::ranges::in_range(&head.row([0u16; 8], 0)) && image.epochs_fit()
}

// Errors 17 and 18 of an image, in that order.
fn judge(bytes: &[u8]) -> Result<Image<'_>, Refusal>
    ensures answer { answer result ≡ cond (length_fits bytes.now) (cond (numbers_fit bytes.now) 0 18) 17 }
    ensures image { IfOk result (λ x. (x.bytes.now ≡ bytes.now) × (x.records ≡ records_in bytes.now)) }
    ensures few { IfOk result (λ x. x.records ≤ most) }
{
    let image = sized(bytes)?;
    ensure(numbers_fit(image), Refusal::ImageNumber)?;
    Ok(image)
}

// Takes up the row of an image into the lent places, with a scratch; else refusal 1 for the lent lengths, 3 for a scratch
// that is too short, 17, 18 or 19 for the image, and the row stays. All chains are looked at before a place is written.
pub fn load(
    row: &mut Cluster,
    image: &[u8],
    p: &mut LentMut<'_>,
    scratch: &mut [u8],
) -> Result<(), Refusal>
    ensures same { SameLent p.old p.new }
    ensures loads { Loads image.now row.old (places_in p.old) scratch.old (loaded result row.new) (places_in p.new)
        scratch.new }
{
    ensure(shown::lengths(p.lent()), Refusal::Invalid)?;
    ensure(marks::enough(scratch.len()), Refusal::Room)?;
    let image = match judge(image) {
        Ok(image) => image,
        Err(e) => {
            // Walking the chains clears it too: no byte is cleared for nothing.
            marks::clear(&mut *scratch);
            return Err(e);
        }
    };
    let lengths = loading::take_chains(image, &mut *p, &mut *scratch)?;
    *row = Head { bytes: image.bytes }.row(lengths.boards, lengths.receipts);
    Ok(())
}
