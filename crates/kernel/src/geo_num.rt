// A scalar with the kernel that it names.
ghost use Rattle.std.specs.Prelude.{◌≡◌, ◌<ℤ◌};
ghost use Rattle.std.specs.Ordering.{MatchOrdering};

use crate::kernels::{Kernel, ScreeningKernel, SimpleKernel};
use scalar::coord_num::CoordNum;
use scalar::f64_scalar::F64Scalar;
use scalar::i32_scalar::I32Scalar;
use scalar::units::Units;
use std::cmp::Ordering;

pub trait GeoNum: CoordNum {
    type Ker: Kernel<Self>;

    // The order of the units.
    fn total_cmp(&self, other: &Self) -> Ordering
        ensures { MatchOrdering result (Self.units self.now <ℤ Self.units other.now) (self.now ≡ other.now) (Self.units other.now <ℤ Self.units self.now) }
    {
        self.cmp(other)
    }
}

impl GeoNum for I32Scalar {
    type Ker = SimpleKernel;
}

impl GeoNum for F64Scalar {
    type Ker = ScreeningKernel;
}
