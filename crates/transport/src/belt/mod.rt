// The belt: all lanes share one array.
ghost use Rattle.std.specs.Prelude.{◌≡◌, ℕ, ◌<◌, ◌≤◌, length, slice_index_or};
ghost use Rattle.transport.specs.declared.entry.Entry.{Entry};
ghost use Rattle.transport.specs.Room.{belt_size};

use crate::entry::Entry;

mod moves;

// The messages that the belt holds in all.
pub const BELT_SIZE: usize = 64;

// The belt: the messages of all lanes, in order of arrival.
// An array with a count beside it, since a transport is copied and has no heap: the library's fixed vector is not copied.
#[derive(Clone, Copy)]
pub struct Belt {
    entries: [Entry; BELT_SIZE],
    len: usize,
    ghost long: { length entries ≡ belt_size },
    ghost few: { len ≤ belt_size },
    ghost lanes: { (k : ℕ) (d : Entry) → k < len → (slice_index_or entries k d).lane < 16 },
}
