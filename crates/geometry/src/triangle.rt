ghost use Rattle.std.specs.Prelude.{◌≡◌, map};
ghost use Rattle.scalar.specs.Coords.{grid_point};
ghost use Rattle.geometry.specs.Shapes.{segment, sides};

use crate::line::Line;
use scalar::coord::Coord;
use scalar::coord_num::CoordNum;

// A triangle, in the order in which its corners were given; it may be flat.
#[derive(Clone, Copy, Debug)]
pub struct Triangle<T> {
    pub v1: Coord<T>,
    pub v2: Coord<T>,
    pub v3: Coord<T>,
}

impl<T: CoordNum> Triangle<T> {
    pub fn new(v1: Coord<T>, v2: Coord<T>, v3: Coord<T>) -> Triangle<T>
        ensures { (result.v1 ≡ v1) × (result.v2 ≡ v2) × (result.v3 ≡ v3) }
    {
        Triangle { v1, v2, v3 }
    }

    // The sides v1–v2, v2–v3 and v3–v1.
    pub fn to_lines(&self) -> [Line<T>; 3]
        ensures { map (segment T.units) result ≡ sides (grid_point T.units self.now.v1) (grid_point T.units self.now.v2) (grid_point T.units self.now.v3) }
    {
        [
            Line::new(self.v1, self.v2),
            Line::new(self.v2, self.v3),
            Line::new(self.v3, self.v1),
        ]
    }
}
