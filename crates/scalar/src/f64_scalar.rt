// The f64 scalar, in millimetres.
ghost use Rattle.std.specs.Prelude.{◌≡◌, not, T, ℤ, Some, None};
ghost use Rattle.std.proofs.Common.{sym, subst};
ghost use Rattle.std.proofs.Math.Dec.{T_prop};
ghost use Rattle.std.specs.Float.Ieee.{fits};
ghost use Rattle.std.specs.Float.{binary64};
ghost use Rattle.std.specs.Ordering.{is_eq, nan_last_cmp};
ghost use Rattle.std.specs.Cmp.{on_total, eq_by_cmp_equiv, partial_equiv_from_equiv, partial_order_from_total};
ghost use Rattle.std.specs.Float.Cmp.{nan_last};
ghost use Rattle.std.proofs.Common.{rules};
ghost use Rattle.millimetre.specs.Millimetres.{beyond, whole, on_grid, units_of};
ghost use Rattle.scalar.specs.Faults.{f64_fault, f64_refusal};
ghost use Rattle.millimetre.proofs.Order.{ordered_as_units};
ghost use Rattle.millimetre.proofs.Exact.{on_grid_means, Means, means_one};
ghost use mathlib.Core.HLevel.{is_prop→PathP};

use crate::coord_num::{CoordNum, read_units};
use crate::fault::F64Fault;
use crate::units::Units;
use std::cmp::Ordering;
use std::fmt;

#[derive(Clone, Copy, Debug)]
pub struct F64Scalar {
    value: f64,
    // holds of every float that the machine has
    ghost binary64: { T (fits binary64 value) },
    ghost grid: { T (on_grid value) },
}

// Whether 256 times x lies beyond the reach.
fn is_beyond_reach(x: f64) -> bool
    ensures { result ≡ beyond x }
{
    x.abs() > 2097152.0
}

// Whether 256 times x is whole. Within reach the product is exact.
fn is_whole_units(x: f64) -> bool
    requires { T (not (beyond x)) }
    ensures { result ≡ whole x }
{
    let scaled = x * 256.0;
    scaled == scaled.trunc()
}

// Scalars are compared by their floats. A derive could do it by way of std's `OrderedFloat`, which asks of each
// float first whether it is a NaN; none of these is.
impl PartialEq for F64Scalar {
    ghost eq = { λ x y. is_eq (nan_last_cmp x.value y.value) };

    ghost laws = { partial_equiv_from_equiv (eq_by_cmp_equiv (on_total (λ x. x.value) nan_last)) };

    fn eq(&self, other: &F64Scalar) -> bool {
        self.cmp(other).is_eq()
    }
}

impl Eq for F64Scalar {
    ghost laws = { eq_by_cmp_equiv (on_total (λ x. x.value) nan_last) };
}

impl PartialOrd for F64Scalar {
    ghost partial_cmp = { λ x y. Some (nan_last_cmp x.value y.value) };

    ghost laws = { partial_order_from_total (on_total (λ x. x.value) nan_last) };

    fn partial_cmp(&self, other: &F64Scalar) -> Option<Ordering> {
        Some(self.cmp(other))
    }
}

impl Ord for F64Scalar {
    ghost cmp = { λ x y. nan_last_cmp x.value y.value };

    ghost total = { on_total (λ x. x.value) nan_last };

    ghost matches_partial_cmp = { Prim.search rules };

    ghost matches_eq = { Prim.search rules };

    #[tactic(auto, using(millimetre::proofs::Order::number_cmp))]
    fn cmp(&self, other: &F64Scalar) -> Ordering {
        if self.value < other.value {
            Ordering::Less
        } else if other.value < self.value {
            Ordering::Greater
        } else {
            Ordering::Equal
        }
    }
}

impl Units for F64Scalar {
    ghost units = { λ s. units_of s.value };

    ghost ordered = { λ x y i. Some (ordered_as_units x.value y.value x.grid y.grid i) };
}

impl CoordNum for F64Scalar {
    type Raw = f64;

    type Fault = F64Fault;

    ghost measure = { units_of };

    ghost refusal = { f64_refusal };

    ghost fault = { f64_fault };

    ghost within_reach = { λ x. (on_grid_means x.value x.grid).1 };

    ghost equal_units = { λ x y e.
        let v : x.value ≡ y.value =
        means_one x.value y.value (units_of x.value) x.binary64 y.binary64 (on_grid_means x.value x.grid).0
        (subst (λ (u : ℤ). Means y.value u) (sym e) (on_grid_means y.value y.grid).0) in
        λ i. record {
          value = v i;
          binary64 = is_prop→PathP (λ j. T (fits binary64 (v j))) (λ j. T_prop (fits binary64 (v j))) x.binary64 y.binary64 i;
          grid = is_prop→PathP (λ j. T (on_grid (v j))) (λ j. T_prop (on_grid (v j))) x.grid y.grid i;
        } };

    fn new(raw: f64) -> Result<F64Scalar, F64Fault> {
        if raw.is_nan() {
            return Err(F64Fault::NotANumber);
        }
        if is_beyond_reach(raw) {
            return Err(F64Fault::BeyondReach(raw));
        }
        if !is_whole_units(raw) {
            return Err(F64Fault::OffGrid(raw));
        }
        // -0.0 becomes 0.0
        if raw == 0.0 {
            Ok(F64Scalar { value: 0.0 })
        } else {
            Ok(F64Scalar { value: raw })
        }
    }

    // The very float, so never -0.0.
    fn raw(self) -> f64
        ensures remakes { (f64_refusal result ≡ None) × (units_of result ≡ units_of self.value) }
        ensures value { result ≡ self.value }
    {
        self.value
    }

    fn to_units(self) -> i32 {
        (self.value * 256.0) as i32
    }

    fn from_units(u: i32) -> F64Scalar {
        F64Scalar {
            value: read_units(u) as f64 / 256.0,
        }
    }
}

// Its millimetres.
impl fmt::Display for F64Scalar {
    fn fmt<W: fmt::Write>(&self, f: &mut fmt::Formatter<W>) -> fmt::Result {
        fmt::Display::fmt(&self.raw(), f)
    }
}
