// Theorems on systems, queue abstractions and lists of records: what a closed list is worth, and what decides that it is closed.
#![tactic(auto)]

ghost use Rattle.closed_sets.specs.Codes.{SurpriseLets, PatternLets, OutsideLets, OutsideNot};
ghost use Rattle.closed_sets.specs.Theorems.{ClosedHolds, FoundNothing, ClosedNothing};

// What is reached from the start stays within closed records, and is not bad.
pub fn closed_holds()
    ensures { ClosedHolds }
{}

// Records in which nothing is found are closed.
pub fn found_nothing()
    ensures { FoundNothing }
{}

// In closed records nothing is found.
pub fn closed_nothing()
    ensures { ClosedNothing }
{}

// A record lets a machine be surprised exactly where its codes say so.
pub fn surprise_lets()
    ensures { SurpriseLets }
{}

// A record lets a pattern be met exactly where each of its conditions is allowed.
pub fn pattern_lets()
    ensures { PatternLets }
{}

// A record lets a rule lead outside exactly where the record that its outcome leads to is not listed.
pub fn outside_lets()
    ensures lets { OutsideLets }
    ensures only { OutsideNot }
{}
