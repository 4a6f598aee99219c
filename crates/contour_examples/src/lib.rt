// Worked examples of the definitions of line strings, positions, groups and rings, shown by one computed check.
#![tactic(auto)]

ghost use Rattle.std.specs.Prelude.{◌≡◌};
ghost use Rattle.contour_examples.specs.Examples.{ContourExamples};

// The number of examples, each of which holds.
pub fn contour_examples() -> u8
    ensures count { result ≡ 9 }
    ensures hold { ContourExamples }
{
    9
}
