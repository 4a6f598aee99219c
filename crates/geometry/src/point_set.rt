// A shape as a set of rational points, and the part of them that is its interior.
ghost use Rattle.std.specs.Prelude.{ℕ, ℤ};
ghost use Rattle.plane.specs.Points.{On};
ghost use Rattle.plane.specs.Sets.{At, Interior, InBox, StrictlyInBox};
ghost use Rattle.scalar.specs.Coords.{grid_point};
ghost use Rattle.geometry.specs.Shapes.{segment};
ghost use Rattle.geometry.specs.Rects.{box};

use crate::line::Line;
use crate::rect::Rect;
use scalar::coord::Coord;
use scalar::coord_num::CoordNum;

pub trait PointSet {
    ghost points: { Self → ℤ → ℤ → ℕ → Type 0 };

    ghost interior: { Self → ℤ → ℤ → ℕ → Type 0 };
}

impl<T: CoordNum> PointSet for Coord<T> {
    ghost points = { λ c. At (grid_point T.units c) };

    ghost interior = { λ c. At (grid_point T.units c) };
}

impl<T: CoordNum> PointSet for Line<T> {
    ghost points = { λ l. On (segment T.units l) };

    ghost interior = { λ l. Interior (segment T.units l) };
}

impl<T: CoordNum> PointSet for Rect<T> {
    ghost points = { λ r. InBox (box T.units r) };

    ghost interior = { λ r. StrictlyInBox (box T.units r) };
}
