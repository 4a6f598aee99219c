use keyed_corners::{grid_corner, grid_corners, print_corners, take_corners};
use plane::grid_point::GridPoint;
use scalar::fault::F64Fault;
use std::alloc::Global;
use std::cell::{Cell, RefCell};
use std::fmt::Display;
use std::io::{self, ErrorKind, Write};
use std::test::Fail;

#[test]
fn a_keyed_corner_lies_on_the_grid_or_is_refused(rt: HostRuntime) {
    assert_eq!(rt; grid_corner(0.5, -0.25), Ok(GridPoint { x: 128, y: -64 }));
    assert_eq!(rt; grid_corner(0.5, 0.001), Err(F64Fault::OffGrid(0.001)));
}

#[test]
fn keyed_corners_off_the_grid_are_left_out(rt: HostRuntime) -> Result<(), Fail> {
    let corners = grid_corners(rt.alloc(), &[(1.0, 2.0), (0.001, 0.0), (0.0, -1.0)])?;
    let expected = [GridPoint { x: 256, y: 512 }, GridPoint { x: 0, y: -256 }];
    assert_eq!(rt; corners.as_slice(), expected.as_slice());
    Ok(())
}

#[test]
fn taken_corners_off_the_grid_are_left_out(rt: HostRuntime) -> Result<(), Fail> {
    let corners = take_corners(&rt, rt.alloc(), &[(1.0, 2.0), (0.001, 0.0), (0.0, -1.0)])?;
    let expected = [GridPoint { x: 256, y: 512 }, GridPoint { x: 0, y: -256 }];
    assert_eq!(rt; corners.as_slice(), expected.as_slice());
    Ok(())
}

// A printer that keeps what it prints, and fails once its lines are used up.
#[derive(Drop)]
struct LimitedPrinter {
    text: RefCell<Vec<u8>>,
    lines_left: Cell<usize>,
}

impl LimitedPrinter {
    fn new(alloc: Global, lines: usize) -> LimitedPrinter {
        LimitedPrinter {
            text: RefCell::new(Vec::new(alloc)),
            lines_left: Cell::new(lines),
        }
    }
}

impl Print for LimitedPrinter {
    fn print<D: Display + Drop>(&self, value: D) -> io::Result<()> {
        match self.text.try_borrow_mut() {
            Ok(mut text) => write!(text, "{value}"),
            Err(_) => Err(ErrorKind::Other.into()),
        }
    }

    fn println<D: Display + Drop>(&self, value: D) -> io::Result<()> {
        let Some(left) = self.lines_left.get().checked_sub(1) else {
            return Err(ErrorKind::WriteZero.into());
        };
        self.lines_left.set(left);
        self.print(value)?;
        self.write_all(b"\n")
    }

    fn write_all(&self, bytes: &[u8]) -> io::Result<()> {
        match self.text.try_borrow_mut() {
            Ok(mut text) => text.write_all(bytes),
            Err(_) => Err(ErrorKind::Other.into()),
        }
    }
}

const KEYED: [(f64, f64); 3] = [(1.0, 2.0), (0.001, 0.0), (0.0, -1.0)];

const PRINTED: [&str; 3] = [
    "  (1, 2) mm lies at (256, 512) units\n",
    "  (0.001, 0) mm is refused with 3: 0.001 mm is off the grid\n",
    "  (0, -1) mm lies at (0, -256) units\n",
];

#[test]
fn printed_corners(rt: HostRuntime) -> Result<(), Fail> {
    let printer = LimitedPrinter::new(rt.alloc(), 3);
    print_corners(&printer, &KEYED)?;
    let expected = PRINTED.concat(rt.alloc())?;
    assert_eq!(rt; printer.text.into_inner().as_slice(), expected.as_bytes());
    Ok(())
}

// Each line is the last once, so that no later one can fail in its place.
#[test]
fn corners_are_printed_until_a_line_fails(rt: HostRuntime) -> Result<(), Fail> {
    for lines in 0..KEYED.len() {
        let printer = LimitedPrinter::new(rt.alloc(), lines);
        let printed = print_corners(&printer, &KEYED[..lines + 1]);
        assert!(rt; printed.is_err_and(|e| e.kind() == ErrorKind::WriteZero));
        let expected = PRINTED[..lines].concat(rt.alloc())?;
        assert_eq!(rt; printer.text.into_inner().as_slice(), expected.as_bytes());
    }
    Ok(())
}
