// The three zones: each has a line for the one key, and counts its starts.
ghost use Rattle.std.specs.Prelude.{◌≡◌, ◌<◌, ◌≤◌, Ok, Err};

use calls::slots::Counts;
use line::lines::Line;
use line::states::Effect;
use messages::refusals::Refusal;
use messages::requests::Request;

pub(crate) const ZONES: usize = 3;

#[derive(Clone, Copy)]
pub(crate) struct Zone {
    pub(crate) line: Line,
    // a start that the line answers by itself is a hit
    counts: Counts,
}

#[derive(Clone, Copy)]
pub(crate) struct Zones {
    row: [Zone; ZONES],
}

impl Zone {
    pub(crate) fn request(&mut self, request: Request) -> Result<Effect, Refusal> {
        let effect = self.line.request(request)?;
        self.counts = self.counts.with_start(effect.answer);
        Ok(effect)
    }
}

impl Zones {
    pub(crate) fn fresh() -> Zones {
        let zone = Zone {
            line: Line::fresh(),
            counts: Counts::default(),
        };
        Zones { row: [zone; ZONES] }
    }

    pub(crate) fn at(&mut self, zone: u8) -> Result<&mut Zone, Refusal> {
        Ok(&mut self.row[index(zone)?])
    }

    pub(crate) fn counts(&self) -> [Counts; ZONES] {
        self.row.map(|zone| zone.counts)
    }
}

// A zone's place in the row.
fn index(zone: u8) -> Result<usize, Refusal>
    ensures { elim result [ Ok at ↦ (at ≡ zone) × (at < 3) | Err e ↦ 3 ≤ zone ] }
{
    let at = zone as usize;
    if at < ZONES {
        Ok(at)
    } else {
        Err(Refusal::NoSuchZone)
    }
}
