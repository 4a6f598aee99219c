// Values and ranges along one axis.
ghost use Rattle.std.specs.Prelude.{◌≤ℤ◌, ◌<ℤ◌};
ghost use Rattle.plane.specs.Reflects.{Reflects};

use scalar::units::Units;

// Whether the value lies from min to max, and is neither.
pub(crate) fn value_strictly_in_range<V: Units>(value: V, min: V, max: V) -> bool
    ensures { Reflects result ((V.units min <ℤ V.units value) × (V.units value <ℤ V.units max)) }
{
    min < value && value < max
}

// Whether the range from min to max lies within the outer one.
pub(crate) fn range_within<V: Units>(min: V, max: V, outer_min: V, outer_max: V) -> bool
    ensures { Reflects result ((V.units outer_min ≤ℤ V.units min) × (V.units max ≤ℤ V.units outer_max)) }
{
    outer_min <= min && max <= outer_max
}

// Whether the range from min to max ends above the low end of the outer one and begins below its high end.
pub(crate) fn range_reaches_into<V: Units>(min: V, max: V, outer_min: V, outer_max: V) -> bool
    ensures { Reflects result ((V.units outer_min <ℤ V.units max) × (V.units min <ℤ V.units outer_max)) }
{
    outer_min < max && min < outer_max
}
