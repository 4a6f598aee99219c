// Floats in millimetres on the grid of 1/256 millimetre: what they mean in units, and the theorems that scaling them
// by 256 and casting them loses nothing. There is no code here.
#![tactic(auto)]
