use crate::tables::check;
use crate::{at, line, point};
use coordinate_position::CoordinatePosition;
use coordinate_position::position::CoordPos;
use geometry::rect::Rect;
use geometry::triangle::Triangle;
use kernel::geo_num::GeoNum;
use line_strings::line_string::LineString;
use plane::grid_point::GridPoint;
use scalar::coord_num::CoordNum;
use scalar::f64_scalar::F64Scalar;
use scalar::i32_scalar::I32Scalar;
use std::process::Abort;

// Checks a shape against a table of positions.
pub(crate) fn positions<T: GeoNum, S: CoordinatePosition<Scalar = T>>(
    rt: &impl Abort,
    shape: &S,
    cases: &[(GridPoint, CoordPos)],
) {
    check(rt, cases, |p| shape.coordinate_position(&at(p)));
}

const ON_LINE: [(GridPoint, CoordPos); 4] = [
    (GridPoint { x: 0, y: 0 }, CoordPos::OnBoundary),
    (GridPoint { x: 4, y: 2 }, CoordPos::OnBoundary),
    (GridPoint { x: 2, y: 1 }, CoordPos::Inside),
    (GridPoint { x: 2, y: 2 }, CoordPos::Outside),
];

const ON_POINT: [(GridPoint, CoordPos); 2] = [
    (GridPoint { x: 3, y: 3 }, CoordPos::Inside),
    (GridPoint { x: 3, y: 2 }, CoordPos::Outside),
];

fn lines<T: GeoNum>(rt: &impl Abort) {
    positions(rt, &at::<T>(point(3, 3)), &ON_POINT);
    positions(rt, &line::<T>(point(0, 0), point(4, 2)), &ON_LINE);
    positions(rt, &line::<T>(point(3, 3), point(3, 3)), &ON_POINT);
}

#[test]
fn positions_on_lines(rt: HostRuntime) {
    lines::<I32Scalar>(&rt);
    lines::<F64Scalar>(&rt);
}

fn on_line_string<T: GeoNum>(
    rt: &impl Abort,
    points: &[GridPoint],
    cases: &[(GridPoint, CoordPos)],
) {
    positions(rt, &LineString::<T>::new(points), cases);
}

// It ends on its first segment.
pub(crate) const HOOK: [GridPoint; 4] = [
    GridPoint { x: 0, y: 0 },
    GridPoint { x: 4, y: 0 },
    GridPoint { x: 4, y: 4 },
    GridPoint { x: 2, y: 0 },
];

const ON_HOOK: [(GridPoint, CoordPos); 5] = [
    (GridPoint { x: 2, y: 0 }, CoordPos::OnBoundary),
    (GridPoint { x: 0, y: 0 }, CoordPos::OnBoundary),
    (GridPoint { x: 1, y: 0 }, CoordPos::Inside),
    (GridPoint { x: 4, y: 4 }, CoordPos::Inside),
    (GridPoint { x: 1, y: 1 }, CoordPos::Outside),
];

fn line_strings<T: GeoNum>(rt: &impl Abort) {
    on_line_string::<T>(rt, &[], &[(point(0, 0), CoordPos::Outside)]);
    on_line_string::<T>(rt, &[point(3, 3)], &ON_POINT);
    on_line_string::<T>(rt, &[point(3, 3), point(3, 3)], &ON_POINT);
    on_line_string::<T>(rt, &[point(0, 0), point(4, 2)], &ON_LINE);
    let back = [point(0, 0), point(4, 0), point(0, 0)];
    on_line_string::<T>(rt, &back, &[(point(0, 0), CoordPos::Inside)]);
    on_line_string::<T>(rt, &HOOK, &ON_HOOK);
}

#[test]
fn positions_on_line_strings(rt: HostRuntime) {
    line_strings::<I32Scalar>(&rt);
    line_strings::<F64Scalar>(&rt);
}

const ON_RECT: [(GridPoint, CoordPos); 4] = [
    (GridPoint { x: 2, y: 2 }, CoordPos::Inside),
    (GridPoint { x: 4, y: 2 }, CoordPos::OnBoundary),
    (GridPoint { x: 0, y: 0 }, CoordPos::OnBoundary),
    (GridPoint { x: 5, y: 0 }, CoordPos::Outside),
];

// A flat shape has one boundary and no inside.
const ON_FLAT: [(GridPoint, CoordPos); 3] = [
    (GridPoint { x: 2, y: 0 }, CoordPos::OnBoundary),
    (GridPoint { x: 0, y: 0 }, CoordPos::OnBoundary),
    (GridPoint { x: 2, y: 1 }, CoordPos::Outside),
];

fn rects<T: GeoNum>(rt: &impl Abort) {
    positions(
        rt,
        &Rect::<T>::new(at(point(4, 0)), at(point(0, 4))),
        &ON_RECT,
    );
    positions(
        rt,
        &Rect::<T>::new(at(point(0, 0)), at(point(4, 0))),
        &ON_FLAT,
    );
}

#[test]
fn positions_on_rectangles(rt: HostRuntime) {
    rects::<I32Scalar>(&rt);
    rects::<F64Scalar>(&rt);
}

fn triangle<T: GeoNum>(a: GridPoint, b: GridPoint, c: GridPoint) -> Triangle<T> {
    Triangle::new(at(a), at(b), at(c))
}

const ON_TRIANGLE: [(GridPoint, CoordPos); 4] = [
    (GridPoint { x: 1, y: 1 }, CoordPos::Inside),
    (GridPoint { x: 2, y: 2 }, CoordPos::OnBoundary),
    (GridPoint { x: 0, y: 0 }, CoordPos::OnBoundary),
    (GridPoint { x: 3, y: 3 }, CoordPos::Outside),
];

const ON_DOT: [(GridPoint, CoordPos); 2] = [
    (GridPoint { x: 1, y: 0 }, CoordPos::OnBoundary),
    (GridPoint { x: 0, y: 0 }, CoordPos::Outside),
];

fn triangles<T: GeoNum>(rt: &impl Abort) {
    let (a, b, c) = (point(0, 0), point(4, 0), point(0, 4));
    positions(rt, &triangle::<T>(a, b, c), &ON_TRIANGLE);
    // clockwise
    positions(rt, &triangle::<T>(c, b, a), &ON_TRIANGLE);
    positions(rt, &triangle::<T>(a, a, b), &ON_FLAT);
    positions(
        rt,
        &triangle::<T>(point(1, 0), point(1, 0), point(1, 0)),
        &ON_DOT,
    );
}

#[test]
fn positions_on_triangles(rt: HostRuntime) {
    triangles::<I32Scalar>(&rt);
    triangles::<F64Scalar>(&rt);
}
