// The ending of a listing, the lines after the answers, from the row, the committed list and its terms. Inner layer:
// callers see to the room.
#![tactic(auto, using(text::proofs::Laws::pages))]

ghost use Rattle.std.specs.Prelude.{true, ◌≡◌, ◌+◌, ◌≤◌, length, take};
ghost use Rattle.model.specs.Ranges.{in_range, terms_in_range};
ghost use Rattle.logstore.specs.Log.{pairs};
ghost use Rattle.cluster.specs.Layout.{outline_of};
ghost use Rattle.text.specs.Text.{Puts, HasRoom};
ghost use Rattle.ending.specs.Ending.{board_line, board_lines, receipts_text, receipts_line, ending};

use cluster::Cluster;
use members::Board;
use text::Page;

// Writes the line of a replica.
fn put_replica(page: &mut Page<'_>, row: &Cluster, b: Board)
    requires { HasRoom page.old (board_line (outline_of row.now) b.number) }
    ensures { Puts page.old (board_line (outline_of row.now) b.number) page.new }
{
    let i = b.index();
    let late = mark::is_late(row.views[i], row.joined[i], row.registry.view);
    state_lines::put_board(
        page,
        b.number,
        &row.views[i],
        row.joined[i],
        row.len[i],
        late,
    );
}

// Writes the lines of the eight replicas.
#[tactic(auto, using(text::proofs::Laws::each_page))]
fn put_replicas(page: &mut Page<'_>, row: &Cluster)
    requires { HasRoom page.old (board_lines (outline_of row.now)) }
    ensures { Puts page.old (board_lines (outline_of row.now)) page.new }
{
    for i in 0..8 {
        put_replica(page, row, Board::at(i));
    }
}

// Writes receipts, of their values and terms.
#[tactic(auto, using(text::proofs::Laws::pages, crate::proofs::Endings::receipts))]
fn put_entries(page: &mut Page<'_>, values: &[u32], terms: &[u16])
    requires same { length values.now ≡ length terms.now }
    requires room { HasRoom page.old (receipts_text (pairs values.now terms.now)) }
    ensures { Puts page.old (receipts_text (pairs values.now terms.now)) page.new }
{
    for (value, term) in values.iter().zip(terms) {
        page.put_byte(b' ');
        state_lines::put_receipt(page, *value, *term);
    }
}

// Writes the line of the receipts: how many, and each.
#[tactic(auto, using(text::proofs::Laws::pages, crate::proofs::Endings::receipts), unfolding(crate::specs::Ending::receipts_line))]
fn put_receipts(page: &mut Page<'_>, values: &[u32], terms: &[u16])
    requires same { length values.now ≡ length terms.now }
    requires few { length values.now ≤ 512 }
    requires room { HasRoom page.old (receipts_line (pairs values.now terms.now)) }
    ensures { Puts page.old (receipts_line (pairs values.now terms.now)) page.new }
{
    page.put_bytes(b"receipts ");
    page.put_number(values.len() as u32);
    put_entries(page, values, terms);
    page.put_byte(b'\n');
}

// Writes the ending: the registry, the controller, the replicas, the receipts. Inner layer: callers see to it that the
// row and the kept epochs of its receipts are in range, the two lists as long as it says, and the page with room for
// any ending. (It is lent the two slices and no `Lent`: of a slice behind a field a proof does not know that its
// numbers are words of 32 bits, by which an ending is short.)
pub fn put_ending(page: &mut Page<'_>, row: &Cluster, list: &[u32], list2: &[u16])
    requires row { in_range (outline_of row.now) ≡ true }
    requires terms { terms_in_range (take row.now.issued (pairs list.now list2.now)) ≡ true }
    requires long { (row.now.issued ≤ length list.now) × (length list.now ≡ length list2.now) }
    requires room { page.old.at + 8704 ≤ length page.old.out.now }
    ensures text { Puts page.old
        (ending (outline_of row.now) (take row.now.issued (pairs list.now list2.now))) page.new }
    ensures most { page.new.at ≤ page.old.at + 8704 }
{
    let n = row.issued as usize;
    state_lines::put_registry(page, &row.registry);
    state_lines::put_control(page, &row.controller);
    put_replicas(page, row);
    put_receipts(page, &list[..n], &list2[..n]);
}
