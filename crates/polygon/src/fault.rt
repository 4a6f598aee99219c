ghost use Rattle.std.specs.Prelude.{◌≡◌};
ghost use Rattle.polygon.specs.Faults.{ring_fault};

use thiserror::Error;

// Why a ring is refused: it is open. It carries the ring's place: 0 for a lone ring and for an exterior, from 1 for holes.
#[derive(Clone, Copy, PartialEq, Eq, Debug, Error)]
pub enum RingFault {
    #[error("ring {0} is open")]
    Open(usize),
}

impl RingFault {
    // The refusal's number.
    pub fn number(self) -> u8
        ensures { result ≡ (ring_fault self).number }
    {
        match self {
            RingFault::Open(_) => 4,
        }
    }
}
