use crate::{at, point};
use coordinate_position::position::CoordPos;
use kernel::geo_num::GeoNum;
use line_strings::line_string::LineString;
use plane::grid_point::GridPoint;
use polygon::fault::RingFault;
use polygon::ring::coord_pos_relative_to_ring;
use scalar::coord_num::CoordNum;
use scalar::f64_scalar::F64Scalar;
use scalar::i32_scalar::I32Scalar;
use std::process::Abort;
use std::test::Fail;

fn in_ring<T: GeoNum>(points: &[GridPoint], p: GridPoint) -> Result<CoordPos, RingFault> {
    coord_pos_relative_to_ring(at(p), &LineString::<T>::new(points))
}

fn ring<T: GeoNum>(rt: &impl Abort, points: &[GridPoint], cases: &[(GridPoint, CoordPos)]) {
    for (p, expected) in cases {
        assert_eq!(rt; in_ring::<T>(points, *p), Ok(*expected), "at {p:?}");
    }
}

const SQUARE: [GridPoint; 5] = [
    GridPoint { x: 0, y: 0 },
    GridPoint { x: 4, y: 0 },
    GridPoint { x: 4, y: 4 },
    GridPoint { x: 0, y: 4 },
    GridPoint { x: 0, y: 0 },
];

const CLOCKWISE: [GridPoint; 5] = [
    GridPoint { x: 0, y: 0 },
    GridPoint { x: 0, y: 4 },
    GridPoint { x: 4, y: 4 },
    GridPoint { x: 4, y: 0 },
    GridPoint { x: 0, y: 0 },
];

const IN_SQUARE: [(GridPoint, CoordPos); 5] = [
    (GridPoint { x: 2, y: 0 }, CoordPos::OnBoundary),
    (GridPoint { x: 0, y: 4 }, CoordPos::OnBoundary), // a vertex
    (GridPoint { x: 2, y: 2 }, CoordPos::Inside),
    (GridPoint { x: 2, y: 5 }, CoordPos::Outside),
    (GridPoint { x: -1, y: 4 }, CoordPos::Outside), // level with a side
];

// Level with a coordinate lie vertices: each is counted once, by the edge rules.
const DIAMOND: [GridPoint; 5] = [
    GridPoint { x: 0, y: 0 },
    GridPoint { x: 3, y: -3 },
    GridPoint { x: 6, y: 0 },
    GridPoint { x: 3, y: 3 },
    GridPoint { x: 0, y: 0 },
];

const IN_DIAMOND: [(GridPoint, CoordPos); 5] = [
    (GridPoint { x: 3, y: 0 }, CoordPos::Inside),
    (GridPoint { x: -3, y: 0 }, CoordPos::Outside),
    (GridPoint { x: 9, y: 0 }, CoordPos::Outside),
    (GridPoint { x: 0, y: 3 }, CoordPos::Outside),
    (GridPoint { x: 0, y: -3 }, CoordPos::Outside),
];

// Twice round is still inside.
const TWICE: [GridPoint; 7] = [
    GridPoint { x: 0, y: 0 },
    GridPoint { x: 4, y: 0 },
    GridPoint { x: 0, y: 4 },
    GridPoint { x: 0, y: 0 },
    GridPoint { x: 4, y: 0 },
    GridPoint { x: 0, y: 4 },
    GridPoint { x: 0, y: 0 },
];

// Round and back is outside.
const UNDONE: [GridPoint; 7] = [
    GridPoint { x: 0, y: 0 },
    GridPoint { x: 4, y: 0 },
    GridPoint { x: 0, y: 4 },
    GridPoint { x: 0, y: 0 },
    GridPoint { x: 0, y: 4 },
    GridPoint { x: 4, y: 0 },
    GridPoint { x: 0, y: 0 },
];

fn rings<T: GeoNum>(rt: &impl Abort) {
    ring::<T>(rt, &SQUARE, &IN_SQUARE);
    ring::<T>(rt, &CLOCKWISE, &IN_SQUARE);
    ring::<T>(rt, &DIAMOND, &IN_DIAMOND);
    ring::<T>(rt, &TWICE, &[(point(1, 1), CoordPos::Inside)]);
    ring::<T>(rt, &UNDONE, &[(point(1, 1), CoordPos::Outside)]);
    ring::<T>(rt, &[], &[(point(0, 0), CoordPos::Outside)]);
    ring::<T>(
        rt,
        &[point(1, 1)],
        &[
            (point(1, 1), CoordPos::OnBoundary),
            (point(1, 2), CoordPos::Outside),
        ],
    );
}

#[test]
fn positions_relative_to_rings(rt: HostRuntime) {
    rings::<I32Scalar>(&rt);
    rings::<F64Scalar>(&rt);
}

const OPEN: [GridPoint; 3] = [
    GridPoint { x: 0, y: 0 },
    GridPoint { x: 2, y: 0 },
    GridPoint { x: 0, y: 2 },
];

#[test]
fn open_rings(rt: HostRuntime) {
    assert_eq!(rt;
        in_ring::<I32Scalar>(&OPEN, point(0, 1)),
        Err(RingFault::Open(0))
    );
    assert_eq!(rt;
        in_ring::<F64Scalar>(&OPEN, point(0, 1)),
        Err(RingFault::Open(0))
    );
    assert_eq!(rt;
        in_ring::<F64Scalar>(&OPEN, point(9, 9)),
        Err(RingFault::Open(0))
    );
    assert_eq!(rt; RingFault::Open(0).number(), 4);
}

#[test]
fn printed_open_rings(rt: HostRuntime) -> Result<(), Fail> {
    let text = RingFault::Open(2).to_string(rt.alloc())?;
    assert_eq!(rt; text.as_str(), "ring 2 is open");
    Ok(())
}
