// The head of an image (document 02, Paper 7), written; crate `head` has what it is, and reads it. Inner layer: callers
// see to it that the page has room for the text.
#![tactic(auto, using(text::proofs::Laws::pages))]

ghost use Rattle.std.specs.Prelude.{[], ◌∷◌, ◌++◌, ◌≡◌};
ghost use Rattle.fields.specs.Fields.{two};
ghost use Rattle.cluster.specs.Layout.{bits, status_of, view_of, at_pair, controller_of, outline_of};
ghost use Rattle.text.specs.Text.{Puts, HasRoom};
ghost use Rattle.head.specs.Head.{texts, mask_of, status_number, heard_number, view_bytes, heard_bytes, board_bytes, head_bytes};

use cluster::{Cluster, Controller, Status, View};
use members::Board;
use text::Page;

// A status by its place in document 01's list. A stage has its own, in cluster: a trait for both would be longer than
// the two.
fn status_number(g: Status) -> u8
    ensures { result ≡ status_number (status_of g) }
{
    g as u8
}

// A heard length as an image has it, 65,535 for none, from 0 for none and n + 1 for n.
fn heard_number(h: u16) -> u16
    ensures { result ≡ heard_number h }
{
    h.wrapping_sub(1)
}

// A set, as an image has it: "member sets have board 1 as the lowest bit".
fn mask(m: u8) -> u8
    ensures { result ≡ mask_of (bits m) }
{
    m
}

// Writes a number of two bytes.
fn put_two(page: &mut Page<'_>, n: u16)
    requires { HasRoom page.old (two n) }
    ensures { Puts page.old (two n) page.new }
{
    page.put_bytes(&n.to_le_bytes());
}

// Writes the epoch and the leader epoch of a view.
fn put_epochs(page: &mut Page<'_>, v: View)
    requires { HasRoom page.old (two v.epoch ++ two v.term) }
    ensures { Puts page.old (two v.epoch ++ two v.term) page.new }
{
    put_two(page, v.epoch);
    put_two(page, v.term);
}

// Writes the view of the registry or of the controller, with the number of its status or stage.
fn put_view(page: &mut Page<'_>, v: View, code: u8)
    requires { HasRoom page.old (view_bytes (view_of v) code) }
    ensures { Puts page.old (view_bytes (view_of v) code) page.new }
{
    put_epochs(page, v);
    page.put_bytes(&[v.leader, mask(v.members), code, 0]);
}

// Writes what the controller heard of a board: its length and its joined epoch.
fn put_heard(page: &mut Page<'_>, h: u16, j: u16)
    requires { HasRoom page.old (two (heard_number h) ++ two j) }
    ensures { Puts page.old (two (heard_number h) ++ two j) page.new }
{
    put_two(page, heard_number(h));
    put_two(page, j);
}

// Writes what the controller heard of the eight boards. By the index: the law `each_page` is by place.
#[tactic(auto, using(text::proofs::Laws::each_page))]
fn put_heards(page: &mut Page<'_>, k: &Controller)
    requires { HasRoom page.old (texts (heard_bytes (controller_of k.now))) }
    ensures { Puts page.old (texts (heard_bytes (controller_of k.now))) page.new }
{
    for i in 0..8 {
        put_heard(page, k.heard[i], k.joined[i]);
    }
}

// Writes the view and the joined epoch of a board.
fn put_taken(page: &mut Page<'_>, v: View, j: u16)
    requires { HasRoom page.old (two v.epoch ++ (two v.term ++ (two j ++ (v.leader ∷ mask_of (bits v.members) ∷ [])))) }
    ensures { Puts page.old (two v.epoch ++ (two v.term ++ (two j ++ (v.leader ∷ mask_of (bits v.members) ∷ []))))
        page.new }
{
    put_epochs(page, v);
    put_two(page, j);
    page.put_bytes(&[v.leader, mask(v.members)]);
}

// Writes the eight counts of the board a.
#[tactic(auto, using(text::proofs::Laws::each_page))]
fn put_counts(page: &mut Page<'_>, acked: &[u16; 64], a: Board)
    requires { HasRoom page.old (texts (λ b. two (at_pair acked.now a.number b))) }
    ensures { Puts page.old (texts (λ b. two (at_pair acked.now a.number b))) page.new }
{
    for i in 0..8 {
        put_two(page, acked[8 * a.index() + i]);
    }
}

// Writes what the board b has.
fn put_board(page: &mut Page<'_>, row: &Cluster, firsts: &[u16; 9], b: Board)
    requires { HasRoom page.old (board_bytes (outline_of row.now) firsts.now b.number) }
    ensures { Puts page.old (board_bytes (outline_of row.now) firsts.now b.number) page.new }
{
    let i = b.index();
    put_taken(page, row.views[i], row.joined[i]);
    put_counts(page, &row.acked, b);
    put_two(page, firsts[i]);
}

// Writes what the eight boards have.
#[tactic(auto, using(text::proofs::Laws::each_page))]
fn put_boards(page: &mut Page<'_>, row: &Cluster, firsts: &[u16; 9])
    requires { HasRoom page.old (texts (board_bytes (outline_of row.now) firsts.now)) }
    ensures { Puts page.old (texts (board_bytes (outline_of row.now) firsts.now)) page.new }
{
    for i in 0..8 {
        put_board(page, row, firsts, Board::at(i));
    }
}

// Writes the head of a row whose lists have these first records, the boards' and then the receipts'. Inner layer:
// callers see to the room.
pub fn put_head(page: &mut Page<'_>, row: &Cluster, firsts: &[u16; 9])
    requires { HasRoom page.old (head_bytes (outline_of row.now) firsts.now) }
    ensures { Puts page.old (head_bytes (outline_of row.now) firsts.now) page.new }
{
    put_view(page, row.registry.view, status_number(row.registry.status));
    put_view(
        page,
        row.controller.view,
        cluster::number(row.controller.stage),
    );
    put_heards(page, &row.controller);
    put_boards(page, row, firsts);
    put_two(page, firsts[8]);
}
