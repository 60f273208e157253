// The pieces of a list that leads a row to normal (document 02, Paper 10): each record is tried on the row, in turn.
// Inner layer: the places are written, so callers lend copies, or places that they have done with.
#![tactic(auto)]

ghost use Rattle.std.specs.Prelude.{◌≡◌};
ghost use Rattle.cluster.specs.Layout.{at, no_view};
ghost use Rattle.refinement.specs.Lent.{places_in};
ghost use Rattle.pieces.specs.Fitting.{Fit, Keeps};

use cluster::{Cluster, Stage, View};
use members::Board;
use orders::{Order, Orders};
use records::Record;
use refinement::LentMut;
use refusal::{Refusal, answer};

// The steps that the pieces make, and the refusals by which they leave some out, as the papers number them. Numbers:
// `put` and `put_unless` take any step that keeps the leaders, and any refusal.
const REFRESH: u8 = 6;

const JOIN: u8 = 7;

const RECEIVE: u8 = 8;

const READ_LEADER: u8 = 11;

const READ: u8 = 12;

const HEAR: u8 = 14;

const JOINING: u8 = 11;

const NOTHING_DUE: u8 = 12;

// The length of the log of b among eight, 0 where b is no replica.
fn length_of(len: [u16; 8], b: u8) -> u16
    ensures { result ≡ at 0 len b }
{
    match Board::new(b) {
        Ok(b) => len[b.index()],
        Err(_) => 0,
    }
}

// The leader in the view of b among eight, 0 where b is no replica.
fn leader_of(views: [View; 8], b: u8) -> u8
    ensures { result ≡ (at no_view views b).leader }
{
    match Board::new(b) {
        Ok(b) => views[b.index()].leader,
        Err(_) => 0,
    }
}

// A list in the making: the row after its records so far, the places on which they were tried, their orders, and
// whether nothing was met that is error 20. That is a flag, as a piece goes on after an error: what it promises is the
// model's draft, with what comes after an error too.
#[derive(Drop)]
pub struct Sketch<'a> {
    pub row: Cluster,
    pub places: LentMut<'a>,
    pub orders: Orders<'a>,
    pub sound: bool,
    pub ghost fit: { Fit row (places_in places) },
}

impl Sketch<'_> {
    ghost use Rattle.std.specs.Prelude.{◌≢◌, ◌+◌, ◌<◌, ◌≤◌, length};
    ghost use Rattle.model.specs.State.{entries};
    ghost use Rattle.model.specs.Records as R;
    ghost use Rattle.recovery.specs.Plan as P;
    ghost use Rattle.pieces.specs.Pieces.{Tried, Moves};

    // Tries the record of a step and a board.
    fn attempt(&mut self, step: u8, board: u8) -> Result<u8, Refusal>
        requires { Keeps (R.step_of (R.of step board)) }
        ensures { Tried (R.of step board) self.old result self.new }
    {
        let _view = self.row.views[0]; // So the proof knows how long the row's arrays are.
        dispatch::send(&mut self.row, &mut self.places, Record::of(step, board))
    }

    // One record more. Inner layer: callers see to the step and to the room.
    pub fn put(&mut self, step: u8, board: u8)
        requires keeps { Keeps (R.step_of (R.of step board)) }
        requires room { self.old.orders.count < length self.old.orders.list.now }
        ensures { Moves 1 (P.put entries (R.of step board)) self.old self.new }
    {
        let ok = self.attempt(step, board).is_ok();
        self.orders.push(Order {
            step,
            board,
            times: 1,
        });
        self.sound &= ok;
    }

    // One record more, left out where it would be refused with `skip`. Inner layer: callers see to the step, to a
    // refusal and to the room.
    pub fn put_unless(&mut self, step: u8, board: u8, skip: u8)
        requires keeps { Keeps (R.step_of (R.of step board)) }
        requires refusal { 1 ≤ skip }
        requires room { self.old.orders.count < length self.old.orders.list.now }
        ensures { Moves 1 (P.put_unless entries skip (R.of step board)) self.old self.new }
    {
        let x = self.attempt(step, board);
        if answer(&x) == skip {
            return;
        }
        self.orders.push(Order {
            step,
            board,
            times: 1,
        });
        self.sound &= x.is_ok();
    }

    // Choosing: news and hearing of b. Inner layer: callers see to the room.
    pub fn hears(&mut self, b: u8)
        requires { self.old.orders.count + 2 ≤ length self.old.orders.list.now }
        ensures { Moves 2 (P.hears entries b) self.old self.new }
    {
        self.put_unless(REFRESH, b, NOTHING_DUE);
        self.put_unless(HEAR, b, NOTHING_DUE);
    }

    // As many receives as bring b to the length of l: one order. Inner layer: callers see to the room.
    pub fn receives(&mut self, l: u8, b: u8)
        requires { self.old.orders.count < length self.old.orders.list.now }
        ensures { Moves 1 (P.receives entries l b) self.old self.new }
    {
        let n = length_of(self.row.len, l).saturating_sub(length_of(self.row.len, b));
        for _ in 0..n {
            let ok = self.attempt(RECEIVE, b).is_ok();
            self.sound &= ok;
        }
        self.orders.push(Order {
            step: RECEIVE,
            board: b,
            times: n,
        });
    }

    // Waiting: news of b, after which it has the leader l in its view. Inner layer: callers see to the room.
    pub fn informs(&mut self, l: u8, b: u8)
        requires { self.old.orders.count < length self.old.orders.list.now }
        ensures { Moves 1 (P.informs entries l b) self.old self.new }
    {
        self.put_unless(REFRESH, b, NOTHING_DUE);
        self.sound &= leader_of(self.row.views, b) == l;
    }

    // News, join, receives and reading of b, for the leader l. Inner layer: callers see to the room.
    pub fn follows(&mut self, l: u8, b: u8)
        requires { self.old.orders.count + 4 ≤ length self.old.orders.list.now }
        ensures { Moves 4 (P.follows entries l b) self.old self.new }
    {
        self.informs(l, b);
        self.put_unless(JOIN, b, JOINING);
        self.receives(l, b);
        self.put_unless(READ, b, NOTHING_DUE);
    }

    // Read leader, left out in stage boards. Inner layer: callers see to the room.
    pub fn reads_leader(&mut self)
        requires { self.old.orders.count < length self.old.orders.list.now }
        ensures { Moves 1 (P.reads_leader entries) self.old self.new }
    {
        if self.row.controller.stage == Stage::Boards {
            return;
        }
        self.put(READ_LEADER, 0);
    }
}
