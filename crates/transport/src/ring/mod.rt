// The ring buffer of one lane, at any depth.
ghost use Rattle.std.specs.Prelude.{◌<◌, ◌≤◌};

use messages::kinds::Message;

pub(crate) mod moves;

// The waiting messages of one lane, at most DEPTH: the oldest stands at `head`, the others follow it around.
// A ring of its own, since a transport is copied and has no heap: the library's ring buffer is on the heap, and its fixed vector is not copied.
#[derive(Clone, Copy)]
pub struct Ring<const DEPTH: usize> {
    slots: [Message; DEPTH],
    head: usize,
    len: usize,
    ghost ok: { (head < DEPTH) × (len ≤ DEPTH) },
}
