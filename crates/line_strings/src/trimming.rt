// Whether a line string covers a line, by trimming: the segments on its line shorten the stretch that is left, until one
// of them takes it all or a round over them changes nothing. A stretch is the pair of its ends along y if the line is
// vertical, along x otherwise, in units.
ghost use Rattle.std.specs.Prelude.{◌≡◌};
ghost use Rattle.plane.specs.Points.{LongerThanZero};
ghost use Rattle.plane.specs.Reach.{read_point, read_segment};
ghost use Rattle.plane.specs.Reflects.{Reflects};
ghost use Rattle.polyline.specs.Tests.{collinear};
ghost use Rattle.polyline.specs.Segments.{Covered};
ghost use Rattle.polyline.specs.Strings.{vertices, segments};
ghost use Rattle.polyline.specs.Trimming.{is_vertical, ordered, span, apart, trimmed, along, trim_by, round};
ghost use Rattle.scalar.specs.Coords.{grid_point};
ghost use Rattle.geometry.specs.Shapes.{segment};
ghost use Rattle.line_strings.specs.Axes.{is_y};

use geometry::line::Line;
use kernel::geo_num::GeoNum;
use kernel::kernels::Kernel;
use plane::grid_point::GridPoint;
use plane::orientation::Orientation;
use scalar::coord::Coord;
use scalar::coord_num::{CoordNum, read_units};

// The smaller of two numbers first.
fn in_order(a: i32, b: i32) -> (i32, i32)
    ensures { result ≡ ordered a b }
{
    if a < b { (a, b) } else { (b, a) }
}

// Whether two stretches have at most an end in common.
fn are_apart(stretch: (i32, i32), by: (i32, i32)) -> bool
    ensures { result ≡ apart stretch by }
{
    by.1 <= stretch.0 || stretch.1 <= by.0
}

// What `by` leaves of the stretch: it shortens it at one end or takes it all. A piece in the middle changes nothing.
fn trim(stretch: (i32, i32), by: (i32, i32)) -> (i32, i32)
    ensures { result ≡ trimmed stretch by }
{
    if are_apart(stretch, by) {
        return stretch;
    }
    match (by.0 <= stretch.0, stretch.1 <= by.1) {
        (true, true) => (stretch.1, stretch.1),
        (true, false) => (by.1, stretch.1),
        (false, true) => (stretch.0, by.0),
        (false, false) => stretch,
    }
}

// Whether nothing is left of the stretch.
fn is_gone(stretch: (i32, i32)) -> bool
    ensures { Reflects result (stretch.0 ≡ stretch.1) }
{
    stretch.0 == stretch.1
}

// What stretches are measured along.
#[derive(Clone, Copy)]
enum Axis {
    X,
    Y,
}

impl Axis {
    // Where the segment between two vertices begins and ends along the axis.
    fn span(self, start: GridPoint, end: GridPoint) -> (i32, i32)
        ensures { result ≡ span (is_y self) (read_segment start end) }
    {
        match self {
            Axis::X => in_order(read_units(start.x), read_units(end.x)),
            Axis::Y => in_order(read_units(start.y), read_units(end.y)),
        }
    }
}

// The line to be covered, with the axis that stretches of it are measured along.
#[derive(Drop)]
pub(crate) struct Target<'l, T: GeoNum> {
    line: &'l Line<T>,
    axis: Axis,
    ghost measured: { is_y axis ≡ is_vertical (segment T.units line.now) },
}

impl<'l, T: GeoNum> Target<'l, T> {
    pub(crate) fn new(line: &'l Line<T>) -> Target<'l, T>
        ensures { result.line.now ≡ line.now }
    {
        let is_vertical = line.start.x == line.end.x;
        Target {
            line,
            axis: if is_vertical { Axis::Y } else { Axis::X },
        }
    }

    // All of the line.
    fn stretch(&self) -> (i32, i32)
        ensures { result ≡ span (is_vertical (segment T.units self.now.line.now)) (segment T.units self.now.line.now) }
    {
        self.axis.span(self.line.start.into(), self.line.end.into())
    }

    // Whether the vertex lies on the line through both ends.
    fn is_collinear(&self, vertex: GridPoint) -> bool
        ensures { result ≡ collinear (grid_point T.units self.now.line.now.start) (grid_point T.units self.now.line.now.end) (read_point vertex) }
    {
        let vertex = Coord::from_grid(vertex);
        T::Ker::orient2d(self.line.start, self.line.end, vertex) == Orientation::Collinear
    }

    // What the segment between two vertices leaves of a stretch. The spans are compared before any product is worked
    // out.
    fn trim_by_segment(&self, stretch: (i32, i32), start: GridPoint, end: GridPoint) -> (i32, i32)
        ensures { result ≡ trim_by (segment T.units self.now.line.now) stretch (read_segment start end) }
    {
        let by = self.axis.span(start, end);
        if !are_apart(stretch, by) && self.is_collinear(start) && self.is_collinear(end) {
            trim(stretch, by)
        } else {
            stretch
        }
    }

    // One round of trimming over all segments.
    fn trim_round(&self, stretch: (i32, i32), points: &[GridPoint]) -> (i32, i32)
        ensures { result ≡ round (segment T.units self.now.line.now) stretch (segments (vertices points.now)) }
    {
        let mut left = stretch;
        for [start, end] in points.array_windows::<2>() {
            left = self.trim_by_segment(left, *start, *end);
            if is_gone(left) {
                return left;
            }
        }
        left
    }

    // Whether the segments cover the line, if it is longer than zero.
    pub(crate) fn is_covered_by(&self, points: &[GridPoint]) -> bool
        requires { LongerThanZero (segment T.units self.now.line.now) }
        ensures { Reflects result (Covered (segments (vertices points.now)) (segment T.units self.now.line.now)) }
    {
        let mut left = self.stretch();
        loop {
            let next = self.trim_round(left, points);
            if next.1 <= next.0 {
                return true;
            }
            if next == left {
                return false;
            }
            left = next;
        }
    }
}
