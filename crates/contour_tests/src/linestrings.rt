use crate::tables::check;
use crate::{at, line, point};
use kernel::geo_num::GeoNum;
use line_strings::line_string::LineString;
use plane::grid_point::GridPoint;
use scalar::coord_num::CoordNum;
use scalar::f64_scalar::F64Scalar;
use scalar::i32_scalar::I32Scalar;
use std::process::Abort;

fn closed<T: GeoNum>(points: &[GridPoint]) -> bool {
    LineString::<T>::new(points).is_closed()
}

fn closed_ones<T: GeoNum>(rt: &impl Abort) {
    assert!(rt; closed::<T>(&[]), "no vertex");
    assert!(rt; closed::<T>(&[point(3, 1)]), "one vertex");
    assert!(rt; !closed::<T>(&[point(3, 1), point(3, 2)]), "open");
    assert!(rt; closed::<T>(&[point(3, 1), point(5, 2), point(3, 1)]));
    assert!(rt;
        closed::<T>(&[point(0, 1), point(5, 2), point(i32::MAX, 1)]),
        "a number beyond reach is read as 0"
    );
}

#[test]
fn closed_line_strings(rt: HostRuntime) {
    closed_ones::<I32Scalar>(&rt);
    closed_ones::<F64Scalar>(&rt);
}

// Checks that its lines are those between neighbouring points, in order, and answers how many points there are.
fn lines_in_order<T: GeoNum>(rt: &impl Abort, points: &[GridPoint]) -> usize {
    let lines = LineString::<T>::new(points).lines().map(|line| (
        GridPoint::from(line.start),
        GridPoint::from(line.end),
    ));
    let neighbours = points
        .array_windows::<2>()
        .map(|[start, end]| (*start, *end));
    assert!(rt; lines.eq(neighbours));
    points.len()
}

#[test]
fn lines_of_line_strings(rt: HostRuntime) {
    assert_eq!(rt; lines_in_order::<I32Scalar>(&rt, &WINDING), 10);
    assert_eq!(rt; lines_in_order::<F64Scalar>(&rt, &WINDING), 10);
    assert_eq!(rt; lines_in_order::<I32Scalar>(&rt, &[]), 0);
    assert_eq!(rt; lines_in_order::<F64Scalar>(&rt, &[point(1, 1)]), 1);
    assert_eq!(rt; LineString::<I32Scalar>::new(&WINDING).lines().count(), 9);
}

fn all_equal<T: GeoNum>(points: &[GridPoint]) -> bool {
    LineString::<T>::new(points).all_equal()
}

#[test]
fn equal_vertices(rt: HostRuntime) {
    assert!(rt; all_equal::<I32Scalar>(&[]));
    assert!(rt; all_equal::<I32Scalar>(&[point(7, 7), point(7, 7), point(7, 7)]));
    assert!(rt; !all_equal::<I32Scalar>(&BENT));
    assert!(rt; !all_equal::<F64Scalar>(&BENT));
}

const BENT: [GridPoint; 3] = [
    GridPoint { x: 0, y: 0 },
    GridPoint { x: 6, y: 3 },
    GridPoint { x: 6, y: -9 },
];

// Which coordinates are its ends
const ENDS: [(GridPoint, bool); 4] = [
    (GridPoint { x: 0, y: 0 }, true),
    (GridPoint { x: 6, y: -9 }, true),
    (GridPoint { x: 6, y: 3 }, false),
    (GridPoint { x: 4, y: 2 }, false),
];

// Which coordinates touch it
const TOUCHING: [(GridPoint, bool); 4] = [
    (GridPoint { x: 4, y: 2 }, true),
    (GridPoint { x: 6, y: -9 }, true),
    (GridPoint { x: 4, y: 1 }, false),
    (GridPoint { x: 6, y: -10 }, false),
];

fn ends<T: GeoNum>(rt: &impl Abort, points: &[GridPoint], cases: &[(GridPoint, bool)]) {
    check(rt, cases, |p| LineString::<T>::new(points).ends_at(&at(p)));
}

fn touches<T: GeoNum>(rt: &impl Abort, points: &[GridPoint], cases: &[(GridPoint, bool)]) {
    check(rt, cases, |p| LineString::<T>::new(points).touches(&at(p)));
}

#[test]
fn ends_and_touching(rt: HostRuntime) {
    ends::<I32Scalar>(&rt, &BENT, &ENDS);
    ends::<F64Scalar>(&rt, &BENT, &ENDS);
    touches::<I32Scalar>(&rt, &BENT, &TOUCHING);
    touches::<F64Scalar>(&rt, &BENT, &TOUCHING);
    ends::<I32Scalar>(&rt, &[], &[(point(0, 0), false)]);
    touches::<I32Scalar>(&rt, &[point(4, 2)], &[(point(4, 2), false)]);
}

// Its segments on the x axis are (1,0)–(2,0), (0,0)–(1,0), (2,0)–(5,0), in this order: one round of trimming
// does not do.
const WINDING: [GridPoint; 10] = [
    GridPoint { x: 1, y: 0 },
    GridPoint { x: 2, y: 0 },
    GridPoint { x: 2, y: 5 },
    GridPoint { x: 0, y: 5 },
    GridPoint { x: 0, y: 0 },
    GridPoint { x: 1, y: 0 },
    GridPoint { x: 1, y: -5 },
    GridPoint { x: 2, y: -5 },
    GridPoint { x: 2, y: 0 },
    GridPoint { x: 5, y: 0 },
];

const IN_ROUNDS: [((GridPoint, GridPoint), bool); 7] = [
    ((GridPoint { x: 0, y: 0 }, GridPoint { x: 5, y: 0 }), true),
    ((GridPoint { x: 5, y: 0 }, GridPoint { x: 0, y: 0 }), true), // either way
    ((GridPoint { x: 0, y: 1 }, GridPoint { x: 0, y: 4 }), true), // vertical
    ((GridPoint { x: 0, y: 0 }, GridPoint { x: 6, y: 0 }), false), // too long
    ((GridPoint { x: 0, y: 0 }, GridPoint { x: 5, y: 1 }), false), // another slope
    ((GridPoint { x: 3, y: 0 }, GridPoint { x: 3, y: 0 }), true), // a point
    ((GridPoint { x: 3, y: 1 }, GridPoint { x: 3, y: 1 }), false), // a point beside
];

const GAP: [GridPoint; 5] = [
    GridPoint { x: 0, y: 0 },
    GridPoint { x: 2, y: 0 },
    GridPoint { x: 2, y: 1 },
    GridPoint { x: 3, y: 0 },
    GridPoint { x: 5, y: 0 },
];

const BESIDE_A_GAP: [((GridPoint, GridPoint), bool); 3] = [
    ((GridPoint { x: 0, y: 0 }, GridPoint { x: 5, y: 0 }), false),
    ((GridPoint { x: 0, y: 0 }, GridPoint { x: 2, y: 0 }), true),
    ((GridPoint { x: 5, y: 0 }, GridPoint { x: 3, y: 0 }), true),
];

// Pieces that overlap.
const DIAGONAL: [GridPoint; 4] = [
    GridPoint { x: -6, y: -4 },
    GridPoint { x: 3, y: 2 },
    GridPoint { x: 0, y: 0 },
    GridPoint { x: 9, y: 6 },
];

// From end to end of the reach.
const REACH: [GridPoint; 2] = [
    GridPoint {
        x: -536870912,
        y: -536870912,
    },
    GridPoint {
        x: 536870912,
        y: 536870912,
    },
];

fn covers<T: GeoNum>(
    rt: &impl Abort,
    points: &[GridPoint],
    cases: &[((GridPoint, GridPoint), bool)],
) {
    check(
        rt,
        cases,
        |(a, b)| LineString::<T>::new(points).covers(&line(a, b)),
    );
}

fn covered<T: GeoNum>(rt: &impl Abort) {
    covers::<T>(rt, &WINDING, &IN_ROUNDS);
    covers::<T>(rt, &GAP, &BESIDE_A_GAP);
    covers::<T>(rt, &DIAGONAL, &[((point(-6, -4), point(9, 6)), true)]);
    covers::<T>(rt, &[], &[((point(0, 0), point(1, 0)), false)]);
    covers::<T>(rt, &[point(0, 0)], &[((point(0, 0), point(0, 0)), false)]);
    covers::<T>(
        rt,
        &REACH,
        &[(
            (point(-536870911, -536870911), point(536870911, 536870911)),
            true,
        )],
    );
    touches::<T>(rt, &REACH, &[(point(536870911, 536870912), false)]);
}

#[test]
fn covered_lines(rt: HostRuntime) {
    covered::<I32Scalar>(&rt);
    covered::<F64Scalar>(&rt);
}
