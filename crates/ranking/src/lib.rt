// Which boards a list of document 02's Paper 10 names: the lowest-numbered of a set, and the highest ranked of them as
// the controller heard them. Sets are masks.
#![tactic(auto)]

ghost use Rattle.std.specs.Prelude.{◌≡◌, ltb};
ghost use Rattle.model.specs.Members.{◌∩◌};
ghost use Rattle.model.specs.Steps as S;
ghost use Rattle.recovery.specs.Plan as P;
ghost use Rattle.recovery.specs.Plan.{first_of};
ghost use Rattle.members.specs.Mask.{bits};
ghost use Rattle.cluster.specs.Layout.{controller_of};

use cluster::Controller;
use members::{Board, filter, lowest, size};

// Those of the set that are below b.
fn below(m: u8, b: Board) -> u8
    ensures { bits result ≡ (λ x. ltb x b.number) ∩ bits m }
{
    m & !(255 << b.index())
}

// "The lowest-numbered" n of the set, all of them where there are fewer.
pub fn first(m: u8, n: u8) -> u8
    ensures { bits result ≡ first_of n (bits m) }
{
    filter(m, |b| size(below(m, b)) < n)
}

// Those of the set that rank above b as heard.
fn above(c: &Controller, q: u8, b: Board) -> u8
    ensures { bits result ≡ bits q ∩ S.above (controller_of c.now) b.number }
{
    filter(q, |x| c.ranks_above(x, b))
}

// "The highest ranked of them as heard, lowest number on a tie": of q, as the controller has heard them; 0 for the
// empty set: a number, as `P.highest` is, of which it promises.
pub fn highest(c: &Controller, q: u8) -> u8
    ensures { result ≡ P.highest (controller_of c.now) (bits q) }
{
    lowest(filter(q, |b| size(above(c, q, b)) == 0))
}
