// What a scalar is: a number that means a whole number of units within reach.
ghost use Rattle.std.specs.Prelude.{◌≡◌, ℤ, Some, None, Option, MatchResult};
ghost use Rattle.plane.specs.Reach.{Within, read};
ghost use Rattle.plane.specs.Reflects.{Reflects};
ghost use Rattle.scalar.specs.Refusal.{Refusal};

use crate::units::Units;

pub trait CoordNum: Units {
    // the number that a scalar is made from
    type Raw: Copy;
    // why a number is refused
    type Fault: Copy;

    // what a number means in units, and what it is refused with, if it is
    ghost measure: { Self.Raw → ℤ };

    ghost refusal: { Self.Raw → Option (Refusal Self.Raw) };

    // the number and the value of a fault
    ghost fault: { Self.Fault → Refusal Self.Raw };

    fn new(raw: Self::Raw) -> Result<Self, Self::Fault>
        ensures { MatchResult result (λ s. (refusal raw ≡ None) × (Self.units s ≡ measure raw)) (λ e. refusal raw ≡ Some (fault e)) };

    // A number that makes this scalar again.
    fn raw(self) -> Self::Raw
        ensures remakes { (refusal result ≡ None) × (measure result ≡ Self.units self) };

    fn to_units(self) -> i32
        ensures { result ≡ Self.units self };

    // The scalar that a number of units is read as: that of 0 if it is beyond reach.
    fn from_units(u: i32) -> Self
        ensures { Self.units result ≡ read u };

    ghost within_reach: { (x : Self) → Within (Self.units x) };

    ghost equal_units: { (x y : Self) → Self.units x ≡ Self.units y → x ≡ y };
}

// How far the grid reaches from 0 in each direction, in units.
const REACH: i32 = 1 << 29;

pub(crate) fn is_within_reach(u: i32) -> bool
    ensures { Reflects result (Within u) }
{
    (-REACH..=REACH).contains(&u)
}

// A number of units as it is read: 0 if it is beyond reach.
pub fn read_units(u: i32) -> i32
    ensures value { result ≡ read u }
    ensures within { Within result }
{
    if is_within_reach(u) { u } else { 0 }
}
