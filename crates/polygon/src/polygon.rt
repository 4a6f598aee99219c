ghost use Rattle.std.specs.Prelude.{⊤, ◌≡◌, ◌⊎◌, IfOk, Some, None, MatchOption, MatchResult};
ghost use Rattle.std.specs.List.{AllByRecursion};
ghost use Rattle.plane.specs.Reflects.{Reflects, Iff};
ghost use Rattle.polyline.specs.Strings.{Closed};
ghost use Rattle.scalar.specs.Coords.{grid_point};
ghost use Rattle.coordinate_position.specs.declared.position.CoordPos.TheVariants.{OnBoundary, Inside, Outside};
ghost use Rattle.coordinate_position.specs.Shapes.{membership};
ghost use Rattle.polygon.specs.Faults.{polygon_refusal, refusal_from, ring_fault};
ghost use Rattle.polygon.specs.Polygons.{OnFirstHole, past_holes, polygon_position, polygon_shape, rings};
ghost use Rattle.polygon.specs.Rings.{ring_position};
ghost use Rattle.line_strings.specs.Views.{vertices_of};

use crate::fault::RingFault;
use crate::ring::ring_position;
use coordinate_position::CoordinatePosition;
use coordinate_position::position::{CoordPos, Membership};
use kernel::geo_num::GeoNum;
use line_strings::line_string::LineString;
use scalar::coord::Coord;
use scalar::coord_num::CoordNum;
use std::alloc::AllocError;

// A closed exterior, less the insides of the interiors, which are closed too. The points live for 'a, the list of
// interiors for 'b.
pub struct Polygon<'a, 'b, T> {
    exterior: LineString<'a, T>,
    interiors: &'b [LineString<'a, T>],
    ghost closed: { ∥ Closed (vertices_of exterior) × AllByRecursion Closed (rings interiors.now) ∥₁ },
}

impl<'a, 'b, T: Copy> Clone for Polygon<'a, 'b, T> {
    ghost is_clone = { λ s r. r ≡ s };

    ghost is_infallible = { λ _. ⊤ };

    fn clone(&self) -> Result<Polygon<'a, 'b, T>, AllocError> {
        Ok(*self)
    }
}

impl<'a, 'b, T: Copy> Copy for Polygon<'a, 'b, T> {}

impl<'a, 'b, T: GeoNum> Polygon<'a, 'b, T> {
    // The polygon with these rings; an open one is refused.
    #[tactic(auto, using(crate::proofs::Refusals::none_refused))]
    pub fn new(
        exterior: LineString<'a, T>,
        interiors: &'b [LineString<'a, T>],
    ) -> Result<Polygon<'a, 'b, T>, RingFault>
        ensures refusal { MatchResult result (λ _. polygon_refusal (vertices_of exterior.entry) (rings interiors.now) ≡ None) (λ e. polygon_refusal (vertices_of exterior.entry) (rings interiors.now) ≡ Some (ring_fault e)) }
        ensures closed { Iff (polygon_refusal (vertices_of exterior.entry) (rings interiors.now) ≡ None) (Closed (vertices_of exterior.entry) × AllByRecursion Closed (rings interiors.now)) }
        ensures parts { IfOk result (λ p. (p.exterior.points.now ≡ exterior.entry.points.now) × (p.interiors.now ≡ interiors.now)) }
    {
        if !exterior.is_closed() {
            return Err(RingFault::Open(0));
        }
        if let Some(place) = first_open(interiors) {
            return Err(RingFault::Open(place));
        }
        Ok(Polygon {
            exterior,
            interiors,
        })
    }

    pub fn exterior(&self) -> LineString<'a, T>
        ensures { result.points.now ≡ self.now.exterior.points.now }
    {
        self.exterior
    }

    pub fn interiors(&self) -> &'b [LineString<'a, T>]
        ensures { result.now ≡ self.now.interiors.now }
    {
        self.interiors
    }
}

// The place of the first interior that is open, from 1.
fn first_open<T: GeoNum>(interiors: &[LineString<'_, T>]) -> Option<usize>
    ensures { MatchOption result (refusal_from 1 (rings interiors.now) ≡ None) (λ k. refusal_from 1 (rings interiors.now) ≡ Some (ring_fault (RingFault.Open k))) }
{
    interiors
        .iter()
        .position(|interior| !interior.is_closed())
        .map(|i| i + 1)
}

// Where the coordinate lies if it is inside the exterior: the first interior that does not have it outside decides.
fn position_past_holes<T: GeoNum>(interiors: &[LineString<'_, T>], coord: &Coord<T>) -> CoordPos
    ensures { result ≡ past_holes (rings interiors.now) (grid_point T.units coord.now) }
{
    for interior in interiors {
        match ring_position(interior.points, coord) {
            CoordPos::OnBoundary => return CoordPos::OnBoundary,
            CoordPos::Inside => return CoordPos::Outside,
            CoordPos::Outside => {}
        }
    }
    CoordPos::Inside
}

// The exterior decides unless the coordinate is inside it; then the interiors do.
fn position_by_rings<T: GeoNum>(polygon: &Polygon<'_, '_, T>, coord: &Coord<T>) -> CoordPos
    ensures { result ≡ polygon_position (vertices_of polygon.now.exterior) (rings polygon.now.interiors.now) (grid_point T.units coord.now) }
{
    match ring_position(polygon.exterior.points, coord) {
        CoordPos::OnBoundary => CoordPos::OnBoundary,
        CoordPos::Inside => position_past_holes(polygon.interiors, coord),
        CoordPos::Outside => CoordPos::Outside,
    }
}

// Inside the exterior and outside all interiors is inside.
impl<'a, 'b, T: GeoNum> CoordinatePosition for Polygon<'a, 'b, T> {
    type Scalar = T;

    ghost shape = { λ s. polygon_shape (vertices_of s.exterior) (rings s.interiors.now) };

    #[tactic(auto, using(crate::proofs::Polygons::position_inside, crate::proofs::Polygons::position_boundary))]
    fn calculate_coordinate_position(&self, coord: &Coord<T>) -> Membership
        ensures value { result ≡ membership (polygon_shape (vertices_of self.now.exterior) (rings self.now.interiors.now)) (grid_point T.units coord.now) }
        ensures inside { Reflects result.inside ((ring_position (vertices_of self.now.exterior) (grid_point T.units coord.now) ≡ Inside) × AllByRecursion (λ h. ring_position h (grid_point T.units coord.now) ≡ Outside) (rings self.now.interiors.now)) }
        ensures boundary { Reflects result.odd ((ring_position (vertices_of self.now.exterior) (grid_point T.units coord.now) ≡ OnBoundary) ⊎ ((ring_position (vertices_of self.now.exterior) (grid_point T.units coord.now) ≡ Inside) × OnFirstHole (rings self.now.interiors.now) (grid_point T.units coord.now))) }
    {
        let position = position_by_rings(self, coord);
        Membership {
            inside: position == CoordPos::Inside,
            odd: position == CoordPos::OnBoundary,
        }
    }
}
