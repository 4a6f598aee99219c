ghost use Rattle.scalar.specs.Coords.{grid_point};
ghost use Rattle.coordinate_position.specs.Alike.{Compared, AlikeExactly};

use crate::CoordinatePosition;
use kernel::geo_num::GeoNum;
use scalar::coord::Coord;
use scalar::coord_num::CoordNum;

// Whether the coordinate has the same position in either shape, whatever third shape they are grouped with.
#[tactic(auto, using(crate::proofs::Alikes::same_compared, crate::proofs::Alikes::alike_exactly))]
pub fn alike<T: GeoNum, G: CoordinatePosition<Scalar = T>, H: CoordinatePosition<Scalar = T>>(
    g: &G,
    h: &H,
    coord: &Coord<T>,
) -> bool
    ensures compared { Compared result (grid_point T.units coord.now) (G.CoordinatePosition.shape g.now) (H.CoordinatePosition.shape h.now) }
    ensures exactly { AlikeExactly }
{
    let first = g.calculate_coordinate_position(coord);
    let second = h.calculate_coordinate_position(coord);
    first == second
}
