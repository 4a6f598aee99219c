// Worked examples of the definitions themselves, shown by one computed check.
#![tactic(auto)]

ghost use Rattle.std.specs.Prelude.{◌≡◌};
ghost use Rattle.worked_examples.specs.Examples.{WorkedExamples};

// The number of examples, each of which holds.
pub fn worked_examples() -> u8
    ensures count { result ≡ 3 }
    ensures hold { WorkedExamples }
{
    3
}
