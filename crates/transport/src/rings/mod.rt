// The rings: a ring buffer for each lane, all of one depth.
ghost use Rattle.std.specs.Prelude.{◌≡◌, ◌<◌, length};

use crate::ring::Ring;

mod moves;

// The messages that a lane of the rings holds.
pub const RING_DEPTH: usize = 16;

// The rings. Rings of another depth are another such line, and another `new`.
pub type Rings = RingBank<RING_DEPTH>;

// A ring for each lane, by lane number: a lane has room while it has fewer messages than the depth. Proved once for every depth.
#[derive(Clone, Copy)]
pub struct RingBank<const DEPTH: usize> {
    rings: [Ring<DEPTH>; 16],
    ghost sixteen: { length rings ≡ 16 },
    ghost deep: { 0 < DEPTH },
}
