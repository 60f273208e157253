// A record and its answer in words: the writer of one English line (document 02, Paper 5). Inner layer: callers see to
// the room, and that the answer is on the list. An answer is a number, as `verdict_text` has it and as C gives it to
// `describe_record`, which looks first whether it is on the list.
#![tactic(auto, using(text::proofs::Laws::pages))]

ghost use Rattle.std.specs.Prelude.{true, ◌≡◌, ◌<◌, ◌≤◌, length};
ghost use Rattle.text.specs.Text.{HasRoom, Puts};
ghost use Rattle.records.specs.Record.{record_of};
ghost use Rattle.phrases.specs.Phrases.{is_listed};
ghost use Rattle.phrases.specs.Line as Line;
ghost use Rattle.phrases.specs.Line.{step_text, raw_text, head_text, verdict_text};

use form::{is_well_formed, put_board, put_second};
use records::Record;
use text::Page;
use wording::{NO_STEP, put_lead, put_reason, put_trail};

// Writes a step in words.
#[tactic(auto, using(text::proofs::Laws::pages), unfolding(phrases::specs::Line::step_text))]
fn put_step(page: &mut Page<'_>, r: Record)
    requires step { r.step < 17 }
    requires room { HasRoom page.old (step_text (record_of r)) }
    ensures { Puts page.old (step_text (record_of r)) page.new }
{
    let k = r.step as usize;
    put_lead(page, k);
    put_board(page, r);
    put_trail(page, k);
    put_second(page, r);
}

// Writes a malformed record: its bytes.
#[tactic(auto, using(text::proofs::Laws::pages), unfolding(phrases::specs::Line::raw_text))]
fn put_raw(page: &mut Page<'_>, r: Record)
    requires { HasRoom page.old (raw_text (record_of r)) }
    ensures { Puts page.old (raw_text (record_of r)) page.new }
{
    let bytes: [u8; 8] = r.into();
    put_lead(page, NO_STEP);
    hexes::put_hexes(page, &bytes);
}

// Writes the step of a record, or its bytes, and answers the step by whose phrases its answer is told: a number, as
// `Line.place` is, of which it promises.
#[tactic(auto, using(text::proofs::Laws::pages, crate::proofs::Telling::last_step), unfolding(phrases::specs::Line::head_text))]
fn put_head(page: &mut Page<'_>, r: Record) -> usize
    requires { HasRoom page.old (head_text (record_of r)) }
    ensures head { Puts page.old (head_text (record_of r)) page.new }
    ensures place { result ≡ Line.place (record_of r) }
    ensures form { result < 17 }
{
    if is_well_formed(r) {
        put_step(page, r);
        r.step as usize
    } else {
        put_raw(page, r);
        NO_STEP
    }
}

// Writes the answer a to the step k in words.
#[tactic(auto, using(text::proofs::Laws::pages), unfolding(phrases::specs::Line::verdict_text))]
fn put_verdict(page: &mut Page<'_>, k: usize, a: usize)
    requires step { k < 17 }
    requires listed { is_listed a ≡ true }
    requires room { HasRoom page.old (verdict_text k a) }
    ensures { Puts page.old (verdict_text k a) page.new }
{
    if a != 0 {
        page.put_bytes(b"refused, ");
    }
    put_reason(page, k, a);
}

// Writes the line of a record and its answer. Inner layer: callers see to the room, and that the answer is on the list.
#[tactic(auto, using(text::proofs::Laws::pages), unfolding(phrases::specs::Line::line))]
pub fn put_line(page: &mut Page<'_>, r: Record, a: usize)
    requires listed { is_listed a ≡ true }
    requires room { HasRoom page.old (Line.line (record_of r) a) }
    ensures { Puts page.old (Line.line (record_of r) a) page.new }
{
    let k = put_head(page, r);
    page.put_bytes(b": ");
    put_verdict(page, k, a);
    page.put_byte(b'\n');
}

// A line, written aside: the first `length` of these bytes, as no heap is used. No line is longer.
#[derive(Clone, Copy)]
pub struct Told {
    bytes: [u8; 96],
    length: usize,
    ghost short: { length ≤ 96 },
}

impl Told {
    ghost use Rattle.telling.specs.Told.{told_text};

    // The line of a record and its answer. Inner layer: callers see to it that the answer is on the list.
    #[tactic(auto, using(text::proofs::Laws::pages, crate::proofs::Telling::aside))]
    pub fn new(r: Record, a: usize) -> Told
        requires { is_listed a ≡ true }
        ensures { told_text result ≡ Line.line (record_of r) a }
    {
        let mut bytes = [0u8; 96];
        let mut page = Page::new(&mut bytes);
        put_line(&mut page, r, a);
        let length = page.at;
        Told { bytes, length }
    }

    pub fn text(&self) -> &[u8]
        ensures text { result.now ≡ told_text self.now }
        ensures short { length result.now ≤ 96 }
    {
        &self.bytes[..self.length]
    }
}
