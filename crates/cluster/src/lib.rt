// A row as the hub keeps it, and its parts. Refusal 1 of a row's numbers stands in ranges.
#![tactic(auto)]

ghost use Rattle.std.specs.Prelude.{◌≡◌};
ghost use Rattle.model.specs.Members as Q;
ghost use Rattle.model.specs.State as M;
ghost use Rattle.model.specs.Steps as S;
ghost use Rattle.cluster.specs.Layout.{status_of, stage_of, view_of, controller_of, at, at_pair, no_view};
ghost use Rattle.cluster.specs.Codes.{status_in, stage_in};

use members::Board;
use refusal::Refusal;

pub mod ranges;

// Epoch, leader epoch (term), leader (0: none) and members as a mask: the registry's, or as a replica or the controller
// last took them. The leader is a number: `view_of` has it so, and 0 of the model's view is none.
#[derive(Clone, Copy)]
pub struct View {
    pub epoch: u16,
    pub term: u16,
    pub leader: u8,
    pub members: u8,
}

// Numbered in document 01's order, as an image has them.
#[derive(Clone, Copy, Debug, PartialEq, Eq)]
pub enum Status {
    Normal = 0,
    Waiting = 1,
    Choosing = 2,
}

#[derive(Clone, Copy, Debug, PartialEq, Eq)]
pub enum Stage {
    Idle = 0,
    Leader = 1,
    Boards = 2,
    Choosing = 3,
}

// By number; refusal 18 of an image past the last.
impl TryFrom<u8> for Status {
    type Error = Refusal;

    ghost try_from_gives = { λ n r. r ≡ status_in n };

    fn try_from(n: u8) -> Result<Status, Refusal> {
        match n {
            0 => Ok(Status::Normal),
            1 => Ok(Status::Waiting),
            2 => Ok(Status::Choosing),
            _ => Err(Refusal::ImageNumber),
        }
    }
}

impl TryFrom<u8> for Stage {
    type Error = Refusal;

    ghost try_from_gives = { λ n r. r ≡ stage_in n };

    fn try_from(n: u8) -> Result<Stage, Refusal> {
        match n {
            0 => Ok(Stage::Idle),
            1 => Ok(Stage::Leader),
            2 => Ok(Stage::Boards),
            3 => Ok(Stage::Choosing),
            _ => Err(Refusal::ImageNumber),
        }
    }
}

// Step 10: the controller's stage for the registry's status.
impl From<Status> for Stage {
    ghost from_gives = { λ g r. stage_of r ≡ M.stage_for (status_of g) };

    fn from(g: Status) -> Stage {
        match g {
            Status::Normal => Stage::Idle,
            Status::Waiting => Stage::Leader,
            Status::Choosing => Stage::Choosing,
        }
    }
}

#[derive(Clone, Copy)]
pub struct Registry {
    pub view: View,
    pub status: Status,
}

// By replica, 1 first: the heard length, 0 for none and n + 1 for n, and the heard joined epoch. Two lists of numbers,
// since `controller_of` names each.
#[derive(Clone, Copy)]
pub struct Controller {
    pub view: View,
    pub stage: Stage,
    pub heard: [u16; 8],
    pub joined: [u16; 8],
}

impl Controller {
    // The controller of this view and stage that has heard nothing.
    pub fn deaf(view: View, stage: Stage) -> Controller
        ensures { controller_of result ≡ S.deaf (view_of view) (stage_of stage) }
    {
        Controller {
            view,
            stage,
            heard: [0; 8],
            joined: [0; 8],
        }
    }

    // Whether x ranks above b as they are heard: "by joined epoch first, then length".
    pub fn ranks_above(&self, x: Board, b: Board) -> bool
        ensures { result ≡ S.above (controller_of self.now) b.number x.number }
    {
        let (x, b) = (x.index(), b.index());
        (self.joined[b], self.heard[b]) < (self.joined[x], self.heard[x])
    }
}

// A row of document 01. By replica, 1 first: its view, its joined epoch, the length of its log; acked has a's count for
// b at 8 (a - 1) + b - 1. Then the number of receipts. The entries stand in the lent places. A list
// for each of these, as `outline_of` and `Shape` (crate refinement) name them.
#[derive(Clone, Copy)]
pub struct Cluster {
    pub registry: Registry,
    pub controller: Controller,
    pub views: [View; 8],
    pub joined: [u16; 8],
    pub acked: [u16; 64],
    pub len: [u16; 8],
    pub issued: u16,
}

// What a row has of a replica: its view, its joined epoch, the length of its log; and what one has counted of another.
impl Cluster {
    pub fn view(&self, b: Board) -> View
        ensures { result ≡ at no_view self.now.views b.number }
    {
        self.views[b.index()]
    }

    pub fn joined(&self, b: Board) -> u16
        ensures { result ≡ at 0 self.now.joined b.number }
    {
        self.joined[b.index()]
    }

    pub fn len(&self, b: Board) -> u16
        ensures { result ≡ at 0 self.now.len b.number }
    {
        self.len[b.index()]
    }

    pub fn acked(&self, a: Board, b: Board) -> u16
        ensures { result ≡ at_pair self.now.acked a.number b.number }
    {
        self.acked[8 * a.index() + b.index()]
    }
}

// Whether b is a replica.
pub fn replica(b: u8) -> bool
    ensures { result ≡ Q.is_replica b }
{
    Board::new(b).is_ok()
}

// A stage by its place in document 01's list. A status has its own, in heading: a trait for both would be longer than
// the two.
pub fn number(g: Stage) -> u8
    ensures { result ≡ M.stage_number (stage_of g) }
{
    g as u8
}
