// Sheets from a seed, over the records that are drawn (crate draws): the call behind the entry for the hub's firmware
// (crate row) and the program `seedsheet`.
#![tactic(auto)]

ghost use Rattle.std.specs.Prelude.{◌≡◌};
ghost use Rattle.records.specs.Bytes.{sheet_bytes};
ghost use Rattle.text.specs.Text.{HasRoom, Puts};
ghost use Rattle.draws.specs.Draws.{later};
ghost use Rattle.generator.specs.Seeded.{is_count, outcome_of, left, SheetsWellMade};
ghost use Rattle.generator.specs.Trials.{DrawsHold, StatesHold, BoardsHold, RecordsHold, CountsHold, LongestHolds, SlicesHold};

use draws::Draws;
use refusal::{Refusal, ensure};
use text::Page;

// Draws k records and writes them.
fn put_later(page: &mut Page<'_>, mut draws: Draws, k: usize)
    requires { HasRoom page.old (sheet_bytes (later k draws.state)) }
    ensures { Puts page.old (sheet_bytes (later k draws.state)) page.new }
{
    for _ in 0..k {
        draws.next_record().put(&mut *page);
    }
}

// Whether a count of records, the opening included, is one that a sheet may have.
pub fn is_count(count: usize) -> bool
    ensures { result ≡ is_count count }
{
    matches!(count, 1..=4095)
}

// Writes the sheet of a seed and a count of records, the opening included. It returns the sheet's length; refusal 2 for
// a count outside 1 to 4,095, then 3 for a slice that is shorter than the sheet: both leave the slice untouched. Bytes
// past the sheet keep their values.
#[tactic(auto, using(text::proofs::Laws::pages, crate::proofs::Sheets::seeded), unfolding(crate::specs::Seeded::outcome_of, crate::specs::Seeded::left))]
pub fn seed_sheet(seed: u32, count: usize, sheet: &mut [u8]) -> Result<usize, Refusal>
    ensures { (result ≡ outcome_of seed count sheet.old)
        × (sheet.new ≡ left seed count sheet.old) }
{
    ensure(is_count(count), Refusal::Sheet)?;
    ensure(8 * count <= sheet.len(), Refusal::Room)?;
    let mut draws = Draws { state: seed };
    let mut page = Page::new(&mut *sheet);
    draws.next_opening().put(&mut page);
    put_later(&mut page, draws, count - 1);
    Ok(page.at)
}

// What is claimed of every sheet that `seed_sheet` makes. By the definitions: nothing to run.
pub fn claim()
    ensures { SheetsWellMade }
{}

// The definitions, tried: draws, states, boards, records, and the call at its limits. Nothing to run.
pub fn trials()
    ensures { DrawsHold × StatesHold × BoardsHold × RecordsHold × CountsHold × LongestHolds × SlicesHold }
{}
