// A lane as it is printed: its direction, and its zone.
use std::fmt;
use transport::lanes::Lane;

#[derive(Clone, Copy)]
pub(crate) struct LaneWords(pub(crate) Lane);

impl fmt::Display for LaneWords {
    fn fmt<W: fmt::Write>(&self, f: &mut fmt::Formatter<W>) -> fmt::Result {
        match self.0 {
            Lane::Up(zone) => write!(f, "up   {zone}"),
            Lane::Down(zone) => write!(f, "down {zone}"),
        }
    }
}
