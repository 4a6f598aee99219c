// The i32 scalar, in units.
ghost use Rattle.plane.specs.Reach.{Within};
ghost use Rattle.scalar.specs.Faults.{i32_fault, i32_refusal};
ghost use Rattle.std.proofs.Common.{rules};
ghost use mathlib.Core.HLevel.{is_prop→PathP};
ghost use Rattle.scalar.specs.Reaching.{within_prop};

use crate::coord_num::{CoordNum, is_within_reach, read_units};
use crate::fault::I32Fault;
use crate::units::Units;
use std::fmt;

#[derive(Clone, Copy, PartialEq, Eq, PartialOrd, Ord, Debug)]
pub struct I32Scalar {
    value: i32,
    ghost reach: { Within value },
}

impl Units for I32Scalar {
    ghost units = { λ s. s.value };

    ghost ordered = { λ x y. Prim.search rules };
}

impl CoordNum for I32Scalar {
    type Raw = i32;

    type Fault = I32Fault;

    ghost measure = { λ u. u };

    ghost refusal = { i32_refusal };

    ghost fault = { i32_fault };

    ghost within_reach = { λ x. x.reach };

    ghost equal_units = { λ x y e i. record { value = e i; reach = is_prop→PathP (λ j. Within (e j)) (λ j. within_prop (e j)) x.reach y.reach i } };

    fn new(raw: i32) -> Result<I32Scalar, I32Fault> {
        if is_within_reach(raw) {
            Ok(I32Scalar { value: raw })
        } else {
            Err(I32Fault::BeyondReach(raw))
        }
    }

    fn raw(self) -> i32 {
        self.to_units()
    }

    fn to_units(self) -> i32 {
        self.value
    }

    fn from_units(u: i32) -> I32Scalar {
        I32Scalar {
            value: read_units(u),
        }
    }
}

// Its units.
impl fmt::Display for I32Scalar {
    fn fmt<W: fmt::Write>(&self, f: &mut fmt::Formatter<W>) -> fmt::Result {
        fmt::Display::fmt(&self.raw(), f)
    }
}
