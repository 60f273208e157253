// What is proved of the papers' rules alone. Nothing here is to be run: each function is the carrier of a
// statement, which is its promise.
#![tactic(auto)]

ghost use Rattle.model.specs.Carried.{CarriersHold};
ghost use Rattle.model.specs.Claim.{DemandThree};
ghost use Rattle.model.specs.State.{IsExact, entries};
ghost use Rattle.model.specs.Majority.{Majorities};
ghost use Rattle.model.specs.Ranges.{RunsInRange};
ghost use Rattle.model.specs.Records.{Forms};
ghost use Rattle.model.specs.Trials.{TrialsHold, OthersHold};

// Demand 3, for every opening and every list of steps; and the test of the calls' entries says whether two are the same.
pub fn claim()
    ensures safe { DemandThree }
    ensures exact { IsExact entries }
{}

// Steps 2, 13 and 15 ask for "some majority" as document 01 says it: none answers "no majority" where one exists.
// Accepted, each has behind it all members that qualify, in the words of document 02, Paper 6; refused, no one.
pub fn majorities()
    ensures { Majorities }
{}

// What the set behind a step says of logs in every run: who is behind a receipt holds it (but for a late one and a
// board that has joined a later leader epoch), who is behind set normal holds as much of the leader's log as was heard
// of it, who is behind an install is as it was heard.
pub fn carriers()
    ensures { CarriersHold }
{}

// No state of a run is one that refusal 1 would turn away.
pub fn ranges()
    ensures { RunsInRange }
{}

// A record is well formed just where its step's checks do not answer 1, whatever they look at; an opening, where it is
// a valid one.
pub fn records()
    ensures { Forms }
{}

// The trials of document 01 hold of the definitions: P1 to P9 and the three longer ones; two more that have every
// answer of steps 7 and 8; and two of document 02, Paper 4, with one value sold under two leader epochs.
pub fn trials()
    ensures { TrialsHold × OthersHold }
{}
