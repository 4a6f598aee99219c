// The lines of a line string, one after the other.
ghost use Rattle.std.specs.Prelude.{◌≡◌, length};
ghost use Rattle.polyline.specs.Strings.{vertices, segments};
ghost use Rattle.geometry.specs.Shapes.{segment};
ghost use Rattle.std.specs.Iterator.{YieldsFirstBy, at_most};

use geometry::line::Line;
use kernel::geo_num::GeoNum;
use plane::grid_point::GridPoint;
use scalar::coord_num::CoordNum;
use std::marker::PhantomData;

// An iterator over the lines between neighbours of the points that are left.
#[derive(Clone, Copy)]
pub struct Lines<'a, T> {
    points: &'a [GridPoint],
    scalar: PhantomData<T>,
}

impl<'a, T: GeoNum> Lines<'a, T> {
    pub(crate) fn new(points: &'a [GridPoint]) -> Lines<'a, T>
        ensures { result.points.now ≡ points.now }
    {
        Lines {
            points,
            scalar: PhantomData,
        }
    }
}

// Each item is the line of the first of the segments that are left, and there are none left where it ends.
impl<'a, T: GeoNum> Iterator for Lines<'a, T> {
    type Item = Line<T>;

    ghost next_gives = { YieldsFirstBy (segment T.units) (λ s. segments (vertices s.points.now)) };

    ghost remaining = { λ s. at_most (length s.points.now) };

    fn next(&mut self) -> Option<Line<T>> {
        let [start, rest @ ..] = self.points else {
            return None;
        };
        let end = rest.first()?;
        self.points = rest;
        Some(Line::from_grid(*start, *end))
    }
}
