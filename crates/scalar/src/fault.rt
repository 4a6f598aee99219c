// Why a number is no scalar. Each fault but the first carries the number as it came.
ghost use Rattle.std.specs.Prelude.{◌≡◌};
ghost use Rattle.scalar.specs.Faults.{i32_fault, f64_fault};

use thiserror::Error;

#[derive(Clone, Copy, PartialEq, Eq, Debug, Error)]
pub enum I32Fault {
    #[error("{0} units is beyond reach")]
    BeyondReach(i32),
}

#[derive(Clone, Copy, PartialEq, Debug, Error)]
pub enum F64Fault {
    #[error("not a number")]
    NotANumber,
    #[error("{0} mm is beyond reach")]
    BeyondReach(f64),
    #[error("{0} mm is off the grid")]
    OffGrid(f64),
}

impl I32Fault {
    // The refusal's number.
    pub fn number(self) -> u8
        ensures { result ≡ (i32_fault self).number }
    {
        match self {
            I32Fault::BeyondReach(_) => 2,
        }
    }
}

impl F64Fault {
    // The refusal's number.
    pub fn number(self) -> u8
        ensures { result ≡ (f64_fault self).number }
    {
        match self {
            F64Fault::NotANumber => 1,
            F64Fault::BeyondReach(_) => 2,
            F64Fault::OffGrid(_) => 3,
        }
    }
}
