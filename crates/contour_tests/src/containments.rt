use crate::positions::HOOK;
use crate::tables::check;
use crate::{at, line, point};
use contains::Contains;
use geometry::line::Line;
use kernel::geo_num::GeoNum;
use line_strings::line_string::LineString;
use plane::grid_point::GridPoint;
use scalar::coord::Coord;
use scalar::coord_num::CoordNum;
use scalar::f64_scalar::F64Scalar;
use scalar::i32_scalar::I32Scalar;
use std::process::Abort;

fn coords<T: GeoNum>(rt: &impl Abort, points: &[GridPoint], cases: &[(GridPoint, bool)]) {
    check(rt, cases, |p| LineString::<T>::new(points).contains(&at(p)));
}

fn holds<T: GeoNum>(outer: &[GridPoint], inner: &[GridPoint]) -> bool {
    LineString::<T>::new(outer).contains(&LineString::<T>::new(inner))
}

fn line_holds<T: GeoNum>(inner: &[GridPoint]) -> bool {
    let outer: Line<T> = line(point(0, 0), point(8, 4));
    outer.contains(&LineString::<T>::new(inner))
}

const ON_HOOK: [(GridPoint, bool); 5] = [
    (GridPoint { x: 2, y: 0 }, false), // an open end, on a segment
    (GridPoint { x: 0, y: 0 }, false), // an open end
    (GridPoint { x: 4, y: 0 }, true), // a vertex between
    (GridPoint { x: 3, y: 2 }, true),
    (GridPoint { x: 3, y: 3 }, false),
];

const ROUND: [GridPoint; 4] = [
    GridPoint { x: 0, y: 0 },
    GridPoint { x: 4, y: 0 },
    GridPoint { x: 4, y: 4 },
    GridPoint { x: 0, y: 0 },
];

fn over_coords<T: GeoNum>(rt: &impl Abort) {
    coords::<T>(rt, &HOOK, &ON_HOOK);
    // closed
    coords::<T>(rt, &ROUND, &[(point(0, 0), true)]);
    coords::<T>(
        rt,
        &[point(1, 2)],
        &[(point(1, 2), true), (point(2, 1), false)],
    );
    coords::<T>(rt, &[], &[(point(0, 0), false)]);
}

#[test]
fn line_strings_over_coordinates(rt: HostRuntime) {
    over_coords::<I32Scalar>(&rt);
    over_coords::<F64Scalar>(&rt);
}

const BENT: [GridPoint; 4] = [
    GridPoint { x: 0, y: 0 },
    GridPoint { x: 2, y: 0 },
    GridPoint { x: 5, y: 0 },
    GridPoint { x: 5, y: 5 },
];

const ON_BENT: [((GridPoint, GridPoint), bool); 5] = [
    ((GridPoint { x: 0, y: 0 }, GridPoint { x: 5, y: 0 }), true),
    ((GridPoint { x: 4, y: 0 }, GridPoint { x: 1, y: 0 }), true),
    ((GridPoint { x: 0, y: 0 }, GridPoint { x: 5, y: 5 }), false),
    ((GridPoint { x: 0, y: 0 }, GridPoint { x: 0, y: 0 }), false), // an open end
    ((GridPoint { x: 2, y: 0 }, GridPoint { x: 2, y: 0 }), true),
];

fn over_lines<T: GeoNum>(rt: &impl Abort) {
    check(
        rt,
        &ON_BENT,
        |(a, b)| LineString::<T>::new(&BENT).contains(&line(a, b)),
    );
}

#[test]
fn line_strings_over_lines(rt: HostRuntime) {
    over_lines::<I32Scalar>(&rt);
    over_lines::<F64Scalar>(&rt);
}

// Along the other, the other way, with a vertex twice.
const SPLIT: [GridPoint; 5] = [
    GridPoint { x: 5, y: 3 },
    GridPoint { x: 5, y: 0 },
    GridPoint { x: 5, y: 0 },
    GridPoint { x: 3, y: 0 },
    GridPoint { x: 1, y: 0 },
];

fn over_strings<T: GeoNum>(rt: &impl Abort) {
    assert!(rt; holds::<T>(&BENT, &SPLIT));
    assert!(rt; holds::<T>(&BENT, &BENT), "itself");
    assert!(rt; !holds::<T>(&BENT, &[point(1, 0), point(3, 0), point(3, 1)]));
    assert!(rt; !holds::<T>(&BENT, &[]));
    assert!(rt; !holds::<T>(&[], &BENT));
    assert!(rt; holds::<T>(&BENT, &[point(5, 2), point(5, 2)]));
    assert!(rt; !holds::<T>(&BENT, &[point(0, 0), point(0, 0), point(0, 0)]));
}

#[test]
fn line_strings_over_line_strings(rt: HostRuntime) {
    over_strings::<I32Scalar>(&rt);
    over_strings::<F64Scalar>(&rt);
}

fn in_line<T: GeoNum>(rt: &impl Abort) {
    assert!(rt; line_holds::<T>(&[point(2, 1), point(8, 4), point(0, 0)]));
    assert!(rt; !line_holds::<T>(&[point(2, 1), point(3, 1)]));
    assert!(rt; !line_holds::<T>(&[]));
    assert!(rt; !line_holds::<T>(&[point(0, 0), point(0, 0)]));
    assert!(rt; line_holds::<T>(&[point(4, 2)]));
}

#[test]
fn lines_over_line_strings(rt: HostRuntime) {
    in_line::<I32Scalar>(&rt);
    in_line::<F64Scalar>(&rt);
}
