// The mark of a board line: late or current (document 02, Paper 1).
#![tactic(auto)]

ghost use Rattle.std.specs.Prelude.{◌≡◌};
ghost use Rattle.cluster.specs.Layout.{view_of};
ghost use Rattle.mark.specs.Mark.{late, MarksHold};
ghost use Rattle.mark.specs.Trials.{MarkTrialsHold};

use cluster::View;

// Is a board late that has the view v and this joined epoch, where r is the registry's view?
pub fn is_late(v: View, joined: u16, r: View) -> bool
    ensures { result ≡ late (view_of v) joined (view_of r) }
{
    v.epoch < r.epoch || joined != r.term
}

// What current says of a board's log, and who is current or late, in every run. Not to be run, like `trials`: each is
// the carrier of a statement.
pub fn claim()
    ensures { MarksHold }
{}

// Trials of the mark hold of the definitions.
pub fn trials()
    ensures { MarkTrialsHold }
{}
