// The records that lead a row to status normal (document 02, Paper 10): what they are, and that they do. Nothing here
// is to be run: each function is the carrier of a statement, which is its promise.
#![tactic(auto)]

ghost use Rattle.recovery.specs.Claim.{RunsRecover, AnyPlan};
ghost use Rattle.recovery.specs.Trials.{TrialsHold};

// From every row that a run gives, with the registry's epoch at most 3,998, the list exists and leads to normal.
pub fn claim()
    ensures { RunsRecover }
{}

// Whatever the row, a list that exists leads to normal.
pub fn lists()
    ensures { AnyPlan }
{}

// The lists of a few rows, worked out by hand.
pub fn trials()
    ensures { TrialsHold }
{}
