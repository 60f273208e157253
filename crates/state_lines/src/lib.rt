// The writers of the lines of a state: the registry, the controller, the boards, a receipt. Inner layer: callers see to
// it that the page has room for the text.
#![tactic(auto, using(text::proofs::Laws::pages))]

ghost use Rattle.std.specs.Prelude.{◌++◌, ◌+◌, ◌≤◌, length};
ghost use Rattle.model.specs.State.{entry};
ghost use Rattle.cluster.specs.Layout.{status_of, stage_of, view_of, registry_of, controller_of};
ghost use Rattle.text.specs.Text.{Puts, HasRoom};
ghost use Rattle.lines.specs.Lines.{space, newline, view_text, status_word, stage_word, late_word, registry_line, control_line, board_text, receipt_text};

use cluster::{Controller, Registry, Stage, Status, View};
use text::Page;

// Writes a view and a space after it: epoch, leader epoch, leader, members.
#[tactic(auto, using(text::proofs::Laws::pages), unfolding(lines::specs::Lines::view_text))]
fn put_view(page: &mut Page<'_>, v: &View)
    requires { HasRoom page.old (view_text (view_of v.now) ++ space) }
    ensures { Puts page.old (view_text (view_of v.now) ++ space) page.new }
{
    page.put_field(v.epoch as u32);
    page.put_field(v.term as u32);
    page.put_field(v.leader as u32);
    lines::put_members(page, v.members);
    page.put_byte(b' ');
}

// Writes the registry's status, which ends its line. (`put_stage` differs in its enum and its words, and has nothing
// else: a function of both would be these two tables.)
fn put_status(page: &mut Page<'_>, g: Status)
    requires { HasRoom page.old (status_word (status_of g) ++ newline) }
    ensures { Puts page.old (status_word (status_of g) ++ newline) page.new }
{
    match g {
        Status::Normal => page.put_bytes(b"normal\n"),
        Status::Waiting => page.put_bytes(b"waiting\n"),
        Status::Choosing => page.put_bytes(b"choosing\n"),
    }
}

// Writes the controller's stage, which ends its line.
fn put_stage(page: &mut Page<'_>, g: Stage)
    requires { HasRoom page.old (stage_word (stage_of g) ++ newline) }
    ensures { Puts page.old (stage_word (stage_of g) ++ newline) page.new }
{
    match g {
        Stage::Idle => page.put_bytes(b"idle\n"),
        Stage::Leader => page.put_bytes(b"leader\n"),
        Stage::Boards => page.put_bytes(b"boards\n"),
        Stage::Choosing => page.put_bytes(b"choosing\n"),
    }
}

// Writes the registry's line. Inner layer: callers see to the room.
#[tactic(auto, using(text::proofs::Laws::pages), unfolding(lines::specs::Lines::registry_line))]
pub fn put_registry(page: &mut Page<'_>, r: &Registry)
    requires { HasRoom page.old (registry_line (registry_of r.now)) }
    ensures { Puts page.old (registry_line (registry_of r.now)) page.new }
{
    page.put_bytes(b"registry ");
    put_view(page, &r.view);
    put_status(page, r.status);
}

// Writes the controller's line. (`put_registry` has another word and a status: one function of both would get the word,
// the view and the ending as parameters, for three lines.) Inner layer: callers see to the room.
#[tactic(auto, using(text::proofs::Laws::pages), unfolding(lines::specs::Lines::control_line))]
pub fn put_control(page: &mut Page<'_>, k: &Controller)
    requires { HasRoom page.old (control_line (controller_of k.now)) }
    ensures { Puts page.old (control_line (controller_of k.now)) page.new }
{
    page.put_bytes(b"control ");
    put_view(page, &k.view);
    put_stage(page, k.stage);
}

// Writes whether a replica is late, which ends its line.
fn put_late(page: &mut Page<'_>, late: bool)
    requires { HasRoom page.old (late_word late ++ newline) }
    ensures { Puts page.old (late_word late ++ newline) page.new }
{
    if late {
        page.put_bytes(b"late\n");
    } else {
        page.put_bytes(b"current\n");
    }
}

// Writes the line of a replica: its number, its view, its joined epoch, its log's length, whether it is late.
// Inner layer: callers see to the room.
#[tactic(auto, using(text::proofs::Laws::pages), unfolding(lines::specs::Lines::board_text))]
pub fn put_board(page: &mut Page<'_>, b: u8, v: &View, joined: u16, len: u16, late: bool)
    requires { HasRoom page.old (board_text b (view_of v.now) joined len late) }
    ensures { Puts page.old (board_text b (view_of v.now) joined len late) page.new }
{
    page.put_bytes(b"board ");
    page.put_field(b as u32);
    put_view(page, v);
    page.put_field(joined as u32);
    page.put_field(len as u32);
    put_late(page, late);
}

// Writes a receipt: its value, `@`, its term. Inner layer: callers see to the room.
#[tactic(auto, using(text::proofs::Laws::pages), unfolding(lines::specs::Lines::receipt_text))]
pub fn put_receipt(page: &mut Page<'_>, value: u32, term: u16)
    requires { HasRoom page.old (receipt_text (entry value term)) }
    ensures { Puts page.old (receipt_text (entry value term)) page.new }
{
    page.put_number(value);
    page.put_byte(b'@');
    page.put_number(term as u32);
}
