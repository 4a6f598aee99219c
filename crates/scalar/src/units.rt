// Numbers that mean whole numbers of units, and are ordered by them.
ghost use Rattle.std.specs.Prelude.{◌≡◌, ◌≤ℤ◌, ℤ, Some};
ghost use Rattle.std.specs.Ordering.{int_cmp};
ghost use Rattle.std.proofs.Common.{rules};
ghost use Rattle.plane.specs.Points.{Between};
ghost use Rattle.plane.specs.Reflects.{Reflects};

pub trait Units: Copy + Ord {
    // what a number means, in units of 1/256 millimetre
    ghost units: { Self → ℤ };

    // the order of two numbers is that of their units
    ghost ordered: { (x y : Self) → Self.PartialOrd.partial_cmp x y ≡ Some (int_cmp (units x) (units y)) };
}

impl Units for i32 {
    ghost units = { λ u. u };

    ghost ordered = { λ x y. Prim.search rules };
}

// Whether the value lies from min to max.
pub fn value_in_range<V: Units>(value: V, min: V, max: V) -> bool
    ensures { Reflects result ((V.units min ≤ℤ V.units value) × (V.units value ≤ℤ V.units max)) }
{
    value >= min && value <= max
}

// Whether the value lies between the two bounds, whichever is the lower.
pub fn value_in_between<V: Units>(value: V, bound_1: V, bound_2: V) -> bool
    ensures { Reflects result (Between (V.units value) (V.units bound_1) (V.units bound_2)) }
{
    if bound_1 < bound_2 {
        value_in_range(value, bound_1, bound_2)
    } else {
        value_in_range(value, bound_2, bound_1)
    }
}
