ghost use Rattle.std.specs.Prelude.{◌≡◌};
ghost use Rattle.rules.specs.Shares.{hit_share};
ghost use Rattle.calls.specs.Zones.{start_counts};

use line::lines::Line;
use messages::requests::Answer;
use rules::hits::hit_share;

// A zone's line for one place, and the number of its last request. Before the first it is 0 and no Option: only the number of a line that waits is ever read.
#[derive(Clone, Copy)]
pub struct Slot {
    pub line: Line,
    pub number: u32,
}

// A zone's accepted starts, and those of them that were answered by themselves. No start is counted at first.
#[derive(Clone, Copy, PartialEq, Eq, Default, Debug)]
pub struct Counts {
    pub hits: u32,
    pub starts: u32,
}

impl Counts {
    // One start more, and one hit more where the start was answered by itself. A count ends at the largest u32.
    pub fn with_start(self, answer: Option<Answer>) -> Counts
        ensures { result ≡ start_counts self answer }
    {
        Counts {
            hits: self.hits.saturating_add(u32::from(answer.is_some())),
            starts: self.starts.saturating_add(1),
        }
    }

    // The hits in percent of the starts, to the nearest; none before the first start.
    pub fn hit_share(self) -> Option<u64>
        ensures { result ≡ hit_share self.hits self.starts }
    {
        hit_share(self.hits, self.starts)
    }
}
