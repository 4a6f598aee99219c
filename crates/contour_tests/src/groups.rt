use crate::positions::positions;
use crate::{at, line, point};
use coordinate_position::CoordinatePosition;
use coordinate_position::alike::alike;
use coordinate_position::group::Group;
use coordinate_position::position::CoordPos;
use geometry::line::Line;
use geometry::rect::Rect;
use geometry::triangle::Triangle;
use kernel::geo_num::GeoNum;
use plane::grid_point::GridPoint;
use scalar::coord_num::CoordNum;
use scalar::f64_scalar::F64Scalar;
use scalar::i32_scalar::I32Scalar;
use std::process::Abort;

const IN_EITHER: [(GridPoint, CoordPos); 5] = [
    (GridPoint { x: 2, y: 2 }, CoordPos::Inside),
    (GridPoint { x: 11, y: 1 }, CoordPos::Inside),
    (GridPoint { x: 10, y: 2 }, CoordPos::OnBoundary),
    (GridPoint { x: 4, y: 0 }, CoordPos::OnBoundary),
    (GridPoint { x: 7, y: 2 }, CoordPos::Outside),
];

fn either_order<T: GeoNum>(rt: &impl Abort) {
    let rect = Rect::<T>::new(at(point(0, 0)), at(point(4, 4)));
    let triangle = Triangle::<T>::new(at(point(10, 0)), at(point(14, 0)), at(point(10, 4)));
    let one = Group {
        first: &rect,
        second: &triangle,
    };
    let other = Group {
        first: &triangle,
        second: &rect,
    };
    positions(rt, &one, &IN_EITHER);
    positions(rt, &other, &IN_EITHER);
    assert!(rt; alike(&one, &other, &at(point(2, 2))));
    assert!(rt; !alike(&one, &rect, &at(point(11, 1))));
}

#[test]
fn groups_in_either_order(rt: HostRuntime) {
    either_order::<I32Scalar>(&rt);
    either_order::<F64Scalar>(&rt);
}

// A later member takes no inside back.
fn kept<T: GeoNum>(rt: &impl Abort) {
    let dot = Triangle::<T>::new(at(point(1, 0)), at(point(1, 0)), at(point(1, 0)));
    let group = Group {
        first: at::<T>(point(0, 0)),
        second: dot,
    };
    positions(rt, &group, &[(point(0, 0), CoordPos::Inside)]);
}

#[test]
fn inside_of_an_earlier_member(rt: HostRuntime) {
    kept::<I32Scalar>(&rt);
    kept::<F64Scalar>(&rt);
}

const OF_TWO: [(GridPoint, CoordPos); 2] = [
    (GridPoint { x: 4, y: 0 }, CoordPos::Outside), // two ends cancel
    (GridPoint { x: 0, y: 0 }, CoordPos::OnBoundary),
];

const OF_THREE: [(GridPoint, CoordPos); 1] = [
    (GridPoint { x: 4, y: 0 }, CoordPos::OnBoundary), // three do not
];

fn counted<T: GeoNum>(rt: &impl Abort) {
    let two = Group {
        first: line::<T>(point(0, 0), point(4, 0)),
        second: line::<T>(point(4, 0), point(4, 4)),
    };
    positions(rt, &two, &OF_TWO);
    let three = Group {
        first: two,
        second: line::<T>(point(4, 0), point(8, 0)),
    };
    positions(rt, &three, &OF_THREE);
}

#[test]
fn boundary_counts_of_groups(rt: HostRuntime) {
    counted::<I32Scalar>(&rt);
    counted::<F64Scalar>(&rt);
}

// A line that ends at (4,0), and the same with a line that passes there: both have (4,0) on the boundary, and a third
// line that ends there tells them apart.
fn told_apart<T: GeoNum>(rt: &impl Abort) {
    let ends: Line<T> = line(point(4, 0), point(8, 0));
    let passes = Group {
        first: ends,
        second: line::<T>(point(0, 0), point(8, 0)),
    };
    positions(rt, &ends, &[(point(4, 0), CoordPos::OnBoundary)]);
    positions(rt, &passes, &[(point(4, 0), CoordPos::OnBoundary)]);
    assert!(rt; !alike(&ends, &passes, &at(point(4, 0))));
    assert!(rt; alike(&ends, &passes, &at(point(9, 9))));
    let third: Line<T> = line(point(4, 0), point(4, 9));
    let with_ends = Group {
        first: ends,
        second: third,
    };
    let with_passes = Group {
        first: passes,
        second: third,
    };
    positions(rt, &with_ends, &[(point(4, 0), CoordPos::Outside)]);
    positions(rt, &with_passes, &[(point(4, 0), CoordPos::Inside)]);
}

#[test]
fn groups_told_apart_by_a_third_shape(rt: HostRuntime) {
    told_apart::<I32Scalar>(&rt);
    told_apart::<F64Scalar>(&rt);
}
