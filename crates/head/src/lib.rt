// The head of an image (document 02, Paper 7), read; crate `heading` writes it.
#![tactic(auto)]

ghost use Rattle.std.specs.Prelude.{◌≡◌, ◌+◌, ◌*◌, ◌≤◌, length, get_or};
ghost use Rattle.fields.specs.Fields.{two_at};
ghost use Rattle.head.specs.Head.{boards, status_from, stage_from, heard_from, view_at, counts_from, controller_at, row_at, codes_fit};

use cluster::{Cluster, Controller, Registry, Stage, Status, View};
use std::array::from_fn;

// The bytes of an image, which has a head.
#[derive(Clone, Copy)]
pub struct Head<'a> {
    pub bytes: &'a [u8],
    ghost whole: { 258 ≤ length bytes.now },
}

// A heard length as a row keeps it: 0 for none, of which an image has 65,535, and n + 1 for n.
fn heard(n: u16) -> u16
    ensures { result ≡ heard_from n }
{
    n.wrapping_add(1)
}

impl<'a> Head<'a> {
    // A status by its number; codes_fit is for those past the last. (`stage` has another enum, place and default: one
    // of both would get all three, for one line.)
    fn status(self) -> Status
        ensures { result ≡ status_from (get_or self.entry.bytes.now 6 0) }
    {
        Status::try_from(self.bytes[6]).unwrap_or(Status::Choosing)
    }

    fn stage(self) -> Stage
        ensures { result ≡ stage_from (get_or self.entry.bytes.now 14 0) }
    {
        Stage::try_from(self.bytes[14]).unwrap_or(Stage::Choosing)
    }

    // A view whose epochs stand at i, its leader and members at j.
    fn view(self, i: usize, j: usize) -> View
        requires { (i + 4 ≤ 258) × (j + 2 ≤ 258) }
        ensures { result ≡ view_at self.entry.bytes.now i j }
    {
        View {
            epoch: fields::two_at(self.bytes, i),
            term: fields::two_at(self.bytes, i + 2),
            leader: self.bytes[j],
            members: self.bytes[j + 1],
        }
    }

    // What stands for each board, each `step` bytes after the one before, board 1's at from + step.
    fn column(self, from: usize, step: usize) -> [u16; 8]
        requires { from + 8 * step + 2 ≤ 258 }
        ensures { result ≡ boards (λ b. two_at self.entry.bytes.now (from + step * b)) }
    {
        from_fn(|i| fields::two_at(self.bytes, from + step * (i + 1)))
    }

    // The views of the eight boards.
    fn views(self) -> [View; 8]
        ensures { result ≡ boards (λ b. view_at self.entry.bytes.now (22 + 26 * b) (28 + 26 * b)) }
    {
        from_fn(|i| self.view(48 + 26 * i, 54 + 26 * i))
    }

    // The counts of the boards: a's for b at 8 (a - 1) + b - 1.
    fn counts(self) -> [u16; 64]
        ensures { result ≡ counts_from self.entry.bytes.now }
    {
        from_fn(|i| fields::two_at(self.bytes, 56 + 26 * (i / 8) + 2 * (i % 8)))
    }

    // The heard lengths of the boards.
    fn heards(self) -> [u16; 8]
        ensures { result ≡ boards (λ b. heard_from (two_at self.entry.bytes.now (12 + 4 * b))) }
    {
        from_fn(|i| heard(fields::two_at(self.bytes, 16 + 4 * i)))
    }

    fn controller(self) -> Controller
        ensures { result ≡ controller_at self.entry.bytes.now }
    {
        Controller {
            view: self.view(8, 12),
            stage: self.stage(),
            heard: self.heards(),
            joined: self.column(14, 4),
        }
    }

    // The row that a head says, with these lengths of logs and so many receipts.
    pub fn row(self, len: [u16; 8], issued: u16) -> Cluster
        ensures { result ≡ row_at self.entry.bytes.now len issued }
    {
        Cluster {
            registry: Registry {
                view: self.view(0, 4),
                status: self.status(),
            },
            controller: self.controller(),
            views: self.views(),
            joined: self.column(26, 26),
            acked: self.counts(),
            len,
            issued,
        }
    }

    // Whether status, stage and the zero bytes are in their ranges.
    pub fn codes_fit(self) -> bool
        ensures { result ≡ codes_fit self.entry.bytes.now }
    {
        Status::try_from(self.bytes[6]).is_ok()
            && Stage::try_from(self.bytes[14]).is_ok()
            && self.bytes[7] == 0
            && self.bytes[15] == 0
    }
}
