// The two long trials of document 01, at the limits of a log and of the epochs. They stand apart from the others, in
// `model`, because the checker takes seconds for them, and would take these for every edit of `model` too. Nothing here
// is to be run: the promise is the statement.
#![tactic(auto)]

ghost use Rattle.limits.specs.Limits.{LimitsHold};

// A log takes 512 entries and refuses the next; epochs reach 4,000, and the next raise is refused.
pub fn trials()
    ensures { LimitsHold }
{}
