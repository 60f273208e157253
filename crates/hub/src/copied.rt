// The same steps of a copy of the controller's record. Refusal 1 is one check more, before the step's own. A refused
// step hands no record back: the caller has the old one. These are the core by value under the thin functions of lib.rt
// (docs/DECISIONS.md, "Forms by place"), four as those are: each has its own step in its promise.

ghost use Rattle.hub.specs.Replies.{returned};
ghost use Rattle.hub.specs.Lent.{TakesNews, ReadsLeader, Reads, Hears};

use crate::{Report, fits};
use cluster::{Controller, Registry};
use refusal::{Refusal, ensure};

// Step 10.
pub fn refresh_controller(c: Controller, g: Registry) -> Result<Controller, Refusal>
    ensures { TakesNews c g (returned c result).reply (returned c result).controller }
{
    ensure(fits::news(c, g), Refusal::Invalid)?;
    steps_controller::refresh_controller(c, g)
}

// Step 11.
pub fn read_leader(c: Controller, x: Report) -> Result<Controller, Refusal>
    ensures { ReadsLeader c x (returned c result).reply (returned c result).controller }
{
    ensure(fits::leader(c, x), Refusal::Invalid)?;
    steps_controller::read_leader(c, x.epoch, x.len)
}

// Step 12.
pub fn read(c: Controller, x: Report) -> Result<Controller, Refusal>
    ensures { Reads c x (returned c result).reply (returned c result).controller }
{
    ensure(fits::report(c, x), Refusal::Invalid)?;
    steps_controller::read(c, x.board, x.joined, x.len)
}

// Step 14.
pub fn hear(c: Controller, x: Report) -> Result<Controller, Refusal>
    ensures { Hears c x (returned c result).reply (returned c result).controller }
{
    ensure(fits::report(c, x), Refusal::Invalid)?;
    steps_controller::hear(c, x.board, x.epoch, x.joined, x.len)
}
