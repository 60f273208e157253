// The phrase list, the line of a record and its answer, and what holds of all lines (document 02, Paper 5): definitions
// and laws. The list as bytes is in crate wording, the writer of a line in telling, the call in describe.
#![tactic(auto)]

ghost use Rattle.phrases.specs.Describe.{LinesDiffer, OneLine, Covers, LengthsTell, LinesHold, RoomHolds};

// Two different pairs of record and answer never give the same line; each is one line; the list has the answers 0 to
// 19; no line's length could be a refusal. Nothing to run: the promise is the statement.
pub fn claim()
    ensures { LinesDiffer × OneLine × Covers × LengthsTell × LinesHold × RoomHolds }
{}
