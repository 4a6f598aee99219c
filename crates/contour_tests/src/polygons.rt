use crate::{at, point};
use coordinate_position::CoordinatePosition;
use coordinate_position::position::CoordPos;
use kernel::geo_num::GeoNum;
use line_strings::line_string::LineString;
use plane::grid_point::GridPoint;
use polygon::fault::RingFault;
use polygon::polygon::Polygon;
use scalar::coord_num::CoordNum;
use scalar::f64_scalar::F64Scalar;
use scalar::i32_scalar::I32Scalar;
use std::process::Abort;
use std::test::Fail;

const OUTLINE: [GridPoint; 5] = [
    GridPoint { x: 0, y: 0 },
    GridPoint { x: 9, y: 0 },
    GridPoint { x: 9, y: 9 },
    GridPoint { x: 0, y: 9 },
    GridPoint { x: 0, y: 0 },
];

const HOLE: [GridPoint; 5] = [
    GridPoint { x: 2, y: 2 },
    GridPoint { x: 4, y: 2 },
    GridPoint { x: 4, y: 4 },
    GridPoint { x: 2, y: 4 },
    GridPoint { x: 2, y: 2 },
];

const OPEN: [GridPoint; 3] = [
    GridPoint { x: 5, y: 5 },
    GridPoint { x: 7, y: 5 },
    GridPoint { x: 7, y: 7 },
];

// The position in the polygon of an exterior and two holes.
fn in_polygon<T: GeoNum>(rings: [&[GridPoint]; 3], p: GridPoint) -> Result<CoordPos, RingFault> {
    let [exterior, first, second] = rings;
    let holes = [LineString::<T>::new(first), LineString::<T>::new(second)];
    let polygon = Polygon::new(LineString::new(exterior), &holes)?;
    Ok(polygon.coordinate_position(&at(p)))
}

fn polygon<T: GeoNum>(rt: &impl Abort, rings: [&[GridPoint]; 3], cases: &[(GridPoint, CoordPos)]) {
    for (p, expected) in cases {
        assert_eq!(rt; in_polygon::<T>(rings, *p), Ok(*expected), "at {p:?}");
    }
}

const WITH_A_HOLE: [(GridPoint, CoordPos); 5] = [
    (GridPoint { x: 1, y: 1 }, CoordPos::Inside),
    (GridPoint { x: 3, y: 3 }, CoordPos::Outside),
    (GridPoint { x: 2, y: 3 }, CoordPos::OnBoundary),
    (GridPoint { x: 9, y: 3 }, CoordPos::OnBoundary),
    (GridPoint { x: 10, y: 3 }, CoordPos::Outside),
];

const FILLED: [(GridPoint, CoordPos); 2] = [
    (GridPoint { x: 0, y: 3 }, CoordPos::OnBoundary), // the exterior's boundary stands
    (GridPoint { x: 3, y: 3 }, CoordPos::Outside),
];

fn polygons<T: GeoNum>(rt: &impl Abort) {
    polygon::<T>(rt, [&OUTLINE, &[], &HOLE], &WITH_A_HOLE);
    polygon::<T>(rt, [&OUTLINE, &OUTLINE, &[]], &FILLED);
    // no exterior
    polygon::<T>(rt, [&[], &HOLE, &[]], &[(point(2, 3), CoordPos::Outside)]);
    // the first hole that is not outside decides
    polygon::<T>(
        rt,
        [&OUTLINE, &[point(3, 3)], &HOLE],
        &[(point(3, 3), CoordPos::OnBoundary)],
    );
}

#[test]
fn positions_in_polygons(rt: HostRuntime) {
    polygons::<I32Scalar>(&rt);
    polygons::<F64Scalar>(&rt);
}

// What a polygon of these rings is refused with, if it is.
fn refusal<T: GeoNum>(rings: [&[GridPoint]; 3]) -> Option<RingFault> {
    in_polygon::<T>(rings, point(0, 0)).err()
}

fn refused<T: GeoNum>(rt: &impl Abort) {
    assert_eq!(rt; refusal::<T>([&OUTLINE, &HOLE, &HOLE]), None);
    assert_eq!(rt;
        refusal::<T>([&OPEN, &OPEN, &HOLE]),
        Some(RingFault::Open(0))
    );
    assert_eq!(rt;
        refusal::<T>([&OUTLINE, &HOLE, &OPEN]),
        Some(RingFault::Open(2))
    );
    assert_eq!(rt;
        refusal::<T>([&OUTLINE, &OPEN, &OPEN]),
        Some(RingFault::Open(1))
    );
    assert_eq!(rt;
        refusal::<T>([&[], &OPEN, &HOLE]),
        Some(RingFault::Open(1)),
        "an empty exterior does not excuse an open hole"
    );
}

#[test]
fn open_rings_of_polygons(rt: HostRuntime) {
    refused::<I32Scalar>(&rt);
    refused::<F64Scalar>(&rt);
}

#[test]
fn cloned_polygons(rt: HostRuntime) -> Result<(), Fail> {
    let holes = [LineString::<I32Scalar>::new(&HOLE)];
    let polygon = Polygon::new(LineString::new(&OUTLINE), &holes)?;
    let clone = polygon.clone()?;
    assert_eq!(rt;
        clone.coordinate_position(&at(point(3, 3))),
        CoordPos::Outside
    );
    Ok(())
}
