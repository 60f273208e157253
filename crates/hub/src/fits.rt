// Refusal 1 of what the calls are lent and given.

ghost use Rattle.std.specs.Prelude.{◌≡◌, ◌&&◌, [], ◌∷◌, leb};
ghost use Rattle.model.specs.Ranges.{every, eight};
ghost use Rattle.cluster.specs.Layout.{at};
ghost use Rattle.hub.specs.Lent.{registry_fits, controller_fits, report_ranges, report_fits, leader_fits};

use crate::Report;
use cluster::ranges::{epoch, every_board};
use cluster::{Controller, Registry, Stage, replica};

// The lengths and joined epochs heard.
fn hearings(heard: [u16; 8], joined: [u16; 8]) -> bool
    ensures { result ≡ every (eight (λ b. every (leb (at 0 heard b) 513 ∷ leb (at 0 joined b) 4000 ∷ []))) }
{
    every_board(|b| heard[b.index()] <= 513 && joined[b.index()] <= 4000)
}

// Whether a controller's record is in range.
fn controller(c: Controller) -> bool
    ensures { result ≡ controller_fits c }
{
    c.view.in_range() && c.names_leader() && hearings(c.heard, c.joined)
}

// Whether a registry is.
fn registry(g: Registry) -> bool
    ensures { result ≡ registry_fits g }
{
    g.view.in_range() && g.names_leader()
}

// Step 10: whether both are.
pub fn news(c: Controller, g: Registry) -> bool
    ensures { result ≡ (registry_fits g && controller_fits c) }
{
    registry(g) && controller(c)
}

// Whether a report's four numbers are.
fn tells(x: Report) -> bool
    ensures { result ≡ every (report_ranges x) }
{
    replica(x.board) && epoch(x.epoch) && epoch(x.joined) && x.len <= 512
}

// Steps 12 and 14: whether controller and report are.
pub fn report(c: Controller, x: Report) -> bool
    ensures { result ≡ report_fits c x }
{
    controller(c) && tells(x)
}

// Step 11: and the report is of the controller's leader, at stage leader.
pub fn leader(c: Controller, x: Report) -> bool
    ensures { result ≡ leader_fits c x }
{
    report(c, x) && (c.stage != Stage::Leader || x.board == c.view.leader)
}
