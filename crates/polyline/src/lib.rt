// Lists of segments, line strings and rings in whole units: what they are, and the theorems about them. There is no code
// here.
#![tactic(auto)]
