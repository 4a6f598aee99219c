use std::fmt::Debug;
use std::process::Abort;

// Checks what is answered at each question of a table.
pub(crate) fn check<Q: Copy + Debug, A: Copy + PartialEq + Debug, F: Fn(Q) -> A>(
    rt: &impl Abort,
    cases: &[(Q, A)],
    answer: F,
)
    requires { F.IsAlwaysCallable answer }
{
    for (question, expected) in cases {
        assert_eq!(rt; answer(*question), *expected, "at {question:?}");
    }
}
