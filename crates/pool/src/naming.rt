// What a call names: its zone, its key's place, the message that it delivers.
ghost use Rattle.std.specs.Prelude.{◌≡◌};
ghost use Rattle.transport.specs.Lanes.{oldest};
ghost use Rattle.calls.specs.Faults.{seen};
ghost use Rattle.pool.specs.Naming.{zone_named, place_named, due};

use calls::faults::Fault;
use messages::kinds::Kind;
use messages::refusals::Refusal;
use rules::plan::Plan;
use rules::plan::places::Place;
use rules::plan::zones::Zone;
use transport::interface::Transport;
use transport::lanes::Lane;

// A zone of the plan, or refusal 6.
pub(crate) fn zone_named(plan: Plan, zone: u8) -> Result<Zone, Fault>
    ensures { seen result ≡ zone_named plan zone }
{
    plan.zone(zone)
        .ok_or(Fault::at_zone(Refusal::NoSuchZone, zone))
}

// A key's place, where the plan has it.
pub(crate) fn place_named(plan: Plan, place: Option<usize>) -> Option<Place>
    ensures { result ≡ place_named plan place }
{
    place.and_then(|place| plan.place(place))
}

// The place and the kind of the message to deliver next from a lane of a zone, or refusal 14 or 17.
pub(crate) fn due<T: Transport>(
    transport: &T,
    zone: Zone,
    lane: Lane,
) -> Result<(Place, Kind), Fault>
    ensures { seen result ≡ due zone (oldest (T.waiting transport.now) lane) }
{
    let zone = zone.number();
    let message = transport
        .look(lane)
        .ok_or(Fault::at_zone(Refusal::LaneEmpty, zone))?;
    let place = Place::new(message.place).ok_or(Fault::at_zone(Refusal::Misplaced, zone))?;
    Ok((place, message.kind))
}
