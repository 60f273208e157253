// The controller's steps over its record as the hub lends it: news (10), read leader (11), read (12), hear (14). Bad
// input is refused with 1. Each copies the record out, calls the function of `copied` with it and stores what that
// leaves: document 01 has a core by value, and thin functions over the lent record (docs/DECISIONS.md, "Forms by
// place"). They stay four, of two lines: docs/ name each as a call, with its own step in its promise.
#![tactic(auto)]

ghost use Rattle.hub.specs.Replies.{reply};
ghost use Rattle.hub.specs.Lent.{TakesNews, ReadsLeader, Reads, Hears, LentFixed};
ghost use Rattle.hub.specs.Whole.{PutBack, LinksSafe};

use cluster::{Controller, Registry};
use refusal::Refusal;

pub mod copied;
mod fits;

// What a board tells of itself: its number, its epoch, its joined epoch, the length of its log. Each must be in range,
// also one that the step does not use.
#[derive(Clone, Copy)]
pub struct Report {
    pub board: u8,
    pub epoch: u16,
    pub joined: u16,
    pub len: u16,
}

// Below, Ok hands back the members behind the step as a mask: the empty set, as none of the four steps asks a majority.

// Step 10, the controller takes news of the registry g.
pub fn refresh_controller(c: &mut Controller, g: Registry) -> Result<u8, Refusal>
    ensures { TakesNews c.old g (reply result) c.new }
{
    *c = copied::refresh_controller(*c, g)?;
    Ok(0)
}

// Step 11, the controller reads its leader, of which x tells.
pub fn read_leader(c: &mut Controller, x: Report) -> Result<u8, Refusal>
    ensures { ReadsLeader c.old x (reply result) c.new }
{
    *c = copied::read_leader(*c, x)?;
    Ok(0)
}

// Step 12, the controller reads the board of which x tells.
pub fn read(c: &mut Controller, x: Report) -> Result<u8, Refusal>
    ensures { Reads c.old x (reply result) c.new }
{
    *c = copied::read(*c, x)?;
    Ok(0)
}

// Step 14, the controller hears the board of which x tells.
pub fn hear(c: &mut Controller, x: Report) -> Result<u8, Refusal>
    ensures { Hears c.old x (reply result) c.new }
{
    *c = copied::hear(*c, x)?;
    Ok(0)
}

// The lent controller put back into its row makes a call of the whole row; so demand 3 holds for lists that mix calls
// by record, by name and over the lent controller. Nothing to run: the promise is the statement.
pub fn claim()
    ensures { PutBack × LinksSafe × LentFixed }
{}
