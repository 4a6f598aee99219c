// A coordinate: two scalars, checked at its making, so that every coordinate is on the grid and within reach.
ghost use Rattle.std.specs.Prelude.{◌≡◌, Some, None, MatchResult};
ghost use Rattle.std.specs.Option.{option_or};
ghost use Rattle.plane.specs.Reach.{WithinReach, read_point};
ghost use Rattle.plane.specs.Reflects.{Reflects};
ghost use Rattle.scalar.specs.Coords.{grid_point, equal_coords};
ghost use Rattle.std.specs.Cmp.{and_per, on_per, partial_equiv_from_equiv};
ghost use Rattle.std.proofs.lemmas.Cmp.{int_eq_equiv};

use crate::coord_num::CoordNum;
use crate::units::Units;
use plane::grid_point::GridPoint;
use std::fmt;

#[derive(Clone, Copy, Debug)]
pub struct Coord<T> {
    pub x: T,
    pub y: T,
}

impl<T: CoordNum> Coord<T> {
    // The coordinate of two numbers; x is checked before y.
    pub fn new(x: T::Raw, y: T::Raw) -> Result<Coord<T>, T::Fault>
        ensures { MatchResult result (λ c. (option_or (T.refusal x) (T.refusal y) ≡ None) × (T.units c.x ≡ T.measure x) × (T.units c.y ≡ T.measure y)) (λ e. option_or (T.refusal x) (T.refusal y) ≡ Some (T.fault e)) }
    {
        let x = T::new(x)?;
        let y = T::new(y)?;
        Ok(Coord { x, y })
    }

    // The coordinate that a grid point is read as.
    pub fn from_grid(p: GridPoint) -> Coord<T>
        ensures { grid_point T.units result ≡ read_point p }
    {
        Coord {
            x: T::from_units(p.x),
            y: T::from_units(p.y),
        }
    }
}

// The coordinate as it lies in slices, arrays and tables.
impl<T: CoordNum> From<Coord<T>> for GridPoint {
    ghost from_gives = { λ c p. (p ≡ grid_point T.units c) × WithinReach p };

    fn from(c: Coord<T>) -> GridPoint
        ensures value { result ≡ grid_point T.units c }
        ensures within { WithinReach result }
    {
        GridPoint {
            x: c.x.to_units(),
            y: c.y.to_units(),
        }
    }
}

impl<T: CoordNum> PartialEq for Coord<T> {
    ghost eq = { equal_coords T.units };

    ghost laws = { and_per (on_per (λ c. T.units c.x) (partial_equiv_from_equiv int_eq_equiv)) (on_per (λ c. T.units c.y) (partial_equiv_from_equiv int_eq_equiv)) };

    fn eq(&self, other: &Coord<T>) -> bool
        ensures same { Reflects result (self.now ≡ other.now) }
        ensures value { result ≡ equal_coords T.units self.now other.now }
    {
        self.x == other.x && self.y == other.y
    }
}

impl<T: fmt::Display> fmt::Display for Coord<T> {
    fn fmt<W: fmt::Write>(&self, f: &mut fmt::Formatter<W>) -> fmt::Result {
        write!(f, "({}, {})", self.x, self.y)
    }
}
