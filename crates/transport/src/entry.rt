// What stands in one place of the belt.
use messages::kinds::Message;

// A message on the belt and the number of its lane: the lists of a transport are by number, and a `Lane` could also name a zone that has none.
#[derive(Clone, Copy)]
pub struct Entry {
    pub lane: usize,
    pub message: Message,
}
