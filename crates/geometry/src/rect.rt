ghost use Rattle.std.specs.Prelude.{◌≡◌, ◌≤ℤ◌, map, ⊤};
ghost use Rattle.plane.specs.Sets.{spanned};
ghost use Rattle.scalar.specs.Coords.{grid_point};
ghost use Rattle.geometry.specs.Shapes.{segment, outline};

use crate::line::Line;
use scalar::coord::Coord;
use scalar::coord_num::CoordNum;
use scalar::units::Units;
use std::alloc::AllocError;

// A rectangle with its sides along the axes; it may be flat in one or both directions.
#[derive(Copy, Debug)]
pub struct Rect<T: Units> {
    min: Coord<T>,
    max: Coord<T>,
    ghost left_to_right: { T.units min.x ≤ℤ T.units max.x },
    ghost bottom_to_top: { T.units min.y ≤ℤ T.units max.y },
}

impl<T: Units> Clone for Rect<T> {
    ghost is_clone = { λ r s. s ≡ r };

    ghost is_infallible = { λ _. ⊤ };

    fn clone(&self) -> Result<Rect<T>, AllocError> {
        Ok(*self)
    }
}

impl<T: CoordNum> Rect<T> {
    ghost use Rattle.geometry.specs.Rects.{box};

    // The rectangle with the two as opposite corners: the smaller x and y go into its low corner.
    pub fn new(a: Coord<T>, b: Coord<T>) -> Rect<T>
        ensures corners { box T.units result ≡ spanned (grid_point T.units a) (grid_point T.units b) }
        ensures sorted { (grid_point T.units result.min ≡ (spanned (grid_point T.units a) (grid_point T.units b)).min) × (grid_point T.units result.max ≡ (spanned (grid_point T.units a) (grid_point T.units b)).max) }
    {
        let min = Coord {
            x: a.x.min(b.x),
            y: a.y.min(b.y),
        };
        let max = Coord {
            x: a.x.max(b.x),
            y: a.y.max(b.y),
        };
        Rect { min, max }
    }

    pub fn min(&self) -> Coord<T>
        ensures { grid_point T.units result ≡ (box T.units self.now).min }
    {
        self.min
    }

    pub fn max(&self) -> Coord<T>
        ensures { grid_point T.units result ≡ (box T.units self.now).max }
    {
        self.max
    }

    // The four sides, counter-clockwise from the corner with the larger x and the smaller y.
    pub fn to_lines(&self) -> [Line<T>; 4]
        ensures { map (segment T.units) result ≡ outline (box T.units self.now) }
    {
        let min = self.min();
        let max = self.max();
        let low_right = Coord { x: max.x, y: min.y };
        let high_left = Coord { x: min.x, y: max.y };
        [
            Line::new(low_right, max),
            Line::new(max, high_left),
            Line::new(high_left, min),
            Line::new(min, low_right),
        ]
    }
}
