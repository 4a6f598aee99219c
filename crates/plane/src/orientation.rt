// Which way three points turn.
#[derive(Clone, Copy, PartialEq, Eq, Debug)]
pub enum Orientation {
    CounterClockwise,
    Clockwise,
    Collinear,
}
