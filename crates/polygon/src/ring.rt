// Where a coordinate lies relative to a ring.
ghost use Rattle.std.specs.Prelude.{◌≡◌, IfOk, Some, None, MatchResult};
ghost use Rattle.plane.specs.Reflects.{Iff};
ghost use Rattle.polyline.specs.Strings.{segments, vertices, Closed};
ghost use Rattle.polyline.specs.Tests.{touches_any};
ghost use Rattle.polyline.specs.Winding.{winding};
ghost use Rattle.scalar.specs.Coords.{grid_point};
ghost use Rattle.polygon.specs.Faults.{ring_fault, ring_refusal};
ghost use Rattle.polygon.specs.Rings.{RingPosition, by_winding, ring_position};
ghost use Rattle.line_strings.specs.Views.{vertices_of};

use crate::fault::RingFault;
use crate::passing::{Passing, Probe};
use coordinate_position::position::CoordPos;
use kernel::geo_num::GeoNum;
use line_strings::line_string::LineString;
use plane::grid_point::GridPoint;
use scalar::coord::Coord;
use scalar::coord_num::CoordNum;

// Where the coordinate lies relative to a closed line string; an open one is refused.
#[tactic(auto, using(crate::proofs::Rings::position_meant))]
pub fn coord_pos_relative_to_ring<T: GeoNum>(
    coord: Coord<T>,
    ring: &LineString<'_, T>,
) -> Result<CoordPos, RingFault>
    ensures refusal { MatchResult result (λ _. ring_refusal (vertices_of ring.now) ≡ None) (λ e. ring_refusal (vertices_of ring.now) ≡ Some (ring_fault e)) }
    ensures closed { Iff (ring_refusal (vertices_of ring.now) ≡ None) (Closed (vertices_of ring.now)) }
    ensures value { IfOk result (λ p. p ≡ ring_position (vertices_of ring.now) (grid_point T.units coord)) }
    ensures meaning { IfOk result (λ p. RingPosition (vertices_of ring.now) (grid_point T.units coord) p) }
{
    if !ring.is_closed() {
        return Err(RingFault::Open(0));
    }
    Ok(ring_position(ring.points, &coord))
}

// Where the coordinate lies relative to a line string, open or closed.
pub(crate) fn ring_position<T: GeoNum>(points: &[GridPoint], coord: &Coord<T>) -> CoordPos
    ensures { result ≡ ring_position (vertices points.now) (grid_point T.units coord.now) }
{
    match points {
        [] => CoordPos::Outside,
        // a single vertex has no edge
        [only] => {
            if Coord::from_grid(*only) == *coord {
                CoordPos::OnBoundary
            } else {
                CoordPos::Outside
            }
        }
        _ => position_by_edges(points, coord),
    }
}

// Where the coordinate lies relative to the edges, by the winding number: the upward edges less the downward ones.
fn position_by_edges<T: GeoNum>(points: &[GridPoint], coord: &Coord<T>) -> CoordPos
    ensures { result ≡ by_winding (touches_any (segments (vertices points.now)) (grid_point T.units coord.now)) (winding (grid_point T.units coord.now) (segments (vertices points.now))) }
{
    let probe = Probe::new(coord);
    let mut upward: usize = 0;
    let mut downward: usize = 0;
    for [start, end] in points.array_windows::<2>() {
        match probe.pass_edge(*start, *end) {
            Passing::Touched => return CoordPos::OnBoundary,
            Passing::Upward => upward += 1,
            Passing::Downward => downward += 1,
            Passing::Clear => {}
        }
    }
    if upward == downward {
        CoordPos::Outside
    } else {
        CoordPos::Inside
    }
}
