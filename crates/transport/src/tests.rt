// The backplanes at their limits.
use crate::belt::Belt;
use crate::faults::{Subject, TransportFault};
use crate::interface::Transport;
use crate::lanes::{Lane, LaneSet};
use crate::rings::Rings;
use crate::sending::send_all;
use messages::kinds::{Ask, Down, Kind, Message, Outgoing, Up};
use messages::refusals::Layer;
use std::process::Abort;
use std::test::Fail;

fn purged(place: u8) -> Message {
    Message {
        kind: Kind::Up(Up::Purged),
        place,
    }
}

// Puts messages about the places from `from` up to `to`.
fn put_places<T: Transport>(transport: &mut T, lane: Lane, from: u8, to: u8) -> Result<(), Fail> {
    for place in from..to {
        transport.put(lane, purged(place))?;
    }
    Ok(())
}

// Takes messages about the places from `from` up to `to`, in this order.
fn take_places<T: Transport>(rt: &impl Abort, transport: &mut T, lane: Lane, from: u8, to: u8) {
    for place in from..to {
        assert_eq!(rt; transport.look(lane), Some(purged(place)));
        assert_eq!(rt; transport.take(lane), Some(purged(place)));
    }
}

fn refuses_zone_eight<T: Transport>(rt: &impl Abort, transport: &mut T) {
    let fault = TransportFault::no_such_zone(8);
    assert_eq!(rt; fault.number(), 6);
    assert_eq!(rt; fault.layer(), Layer::Transport);
    assert_eq!(rt; fault.zone(), Some(8));
    assert_eq!(rt; transport.put(Lane::Up(8), purged(0)), Err(fault));
    assert_eq!(rt; transport.look(Lane::Down(8)), None);
    assert_eq!(rt; transport.count(Lane::Down(8)), 0);
    assert_eq!(rt; transport.look_at(Lane::Down(8), 0), None);
    assert_eq!(rt; transport.take(Lane::Down(8)), None);
}

#[test]
fn zone_eight(rt: HostRuntime) {
    let mut rings = Rings::new();
    refuses_zone_eight(&rt, &mut rings);
    let mut belt = Belt::new();
    refuses_zone_eight(&rt, &mut belt);
}

#[test]
fn seventeenth_of_a_ring_lane(rt: HostRuntime) -> Result<(), Fail> {
    let mut rings = Rings::new();
    put_places(&mut rings, Lane::Up(3), 0, 15)?;
    assert!(rt; rings.has_room(LaneSet::one(Lane::Up(3))));
    put_places(&mut rings, Lane::Up(3), 15, 16)?;
    assert!(rt; !rings.has_room(LaneSet::one(Lane::Up(3))));
    let fault = TransportFault::no_room(Subject::Zone(3));
    assert_eq!(rt; fault.number(), 11);
    assert_eq!(rt; rings.put(Lane::Up(3), purged(16)), Err(fault));
    put_places(&mut rings, Lane::Down(3), 0, 1)?;
    take_places(&rt, &mut rings, Lane::Up(3), 0, 16);
    assert_eq!(rt; rings.look(Lane::Up(3)), None);
    Ok(())
}

#[test]
fn order_across_the_end_of_a_ring(rt: HostRuntime) -> Result<(), Fail> {
    let mut rings = Rings::new();
    put_places(&mut rings, Lane::Down(7), 0, 16)?;
    take_places(&rt, &mut rings, Lane::Down(7), 0, 10);
    put_places(&mut rings, Lane::Down(7), 16, 26)?;
    assert!(rt; !rings.has_room(LaneSet::one(Lane::Down(7))));
    assert_eq!(rt; rings.count(Lane::Down(7)), 16);
    assert_eq!(rt; rings.look_at(Lane::Down(7), 15), Some(purged(25)));
    assert_eq!(rt; rings.look_at(Lane::Down(7), 16), None);
    take_places(&rt, &mut rings, Lane::Down(7), 10, 26);
    assert_eq!(rt; rings.take(Lane::Down(7)), None);
    Ok(())
}

#[test]
fn sixty_fifth_of_the_belt(rt: HostRuntime) -> Result<(), Fail> {
    let mut belt = Belt::new();
    put_places(&mut belt, Lane::Up(0), 0, 32)?;
    put_places(&mut belt, Lane::Down(5), 0, 32)?;
    assert_eq!(rt;
        belt.put(Lane::Up(1), purged(0)),
        Err(TransportFault::no_room(Subject::Zone(1)))
    );
    take_places(&rt, &mut belt, Lane::Up(0), 0, 1);
    put_places(&mut belt, Lane::Up(0), 32, 33)?;
    assert!(rt; !belt.has_room(LaneSet::one(Lane::Up(0))));
    assert_eq!(rt; belt.count(Lane::Down(5)), 32);
    assert_eq!(rt; belt.look_at(Lane::Up(0), 31), Some(purged(32)));
    assert_eq!(rt; belt.look_at(Lane::Up(0), 32), None);
    take_places(&rt, &mut belt, Lane::Up(0), 1, 33);
    take_places(&rt, &mut belt, Lane::Down(5), 0, 32);
    Ok(())
}

#[test]
fn all_are_sent_or_none(rt: HostRuntime) -> Result<(), Fail> {
    let mut belt = Belt::new();
    put_places(&mut belt, Lane::Up(0), 0, 62)?;
    let ask = Some(Down::Ask(Ask::Invalidate));
    let mut outgoing = Outgoing {
        to: [None, ask, ask, None, None, None, None, ask],
    };
    let fault = TransportFault::no_room(Subject::Place(4));
    assert_eq!(rt; fault.place(), Some(4));
    assert_eq!(rt;
        send_all(&mut belt, 4, outgoing, Subject::Place(4)),
        Err(fault)
    );
    assert_eq!(rt; belt.look(Lane::Down(1)), None);
    outgoing.to[2] = None;
    assert_eq!(rt; send_all(&mut belt, 4, outgoing, Subject::Place(4)), Ok(()));
    let sent = Message {
        kind: Kind::Down(Down::Ask(Ask::Invalidate)),
        place: 4,
    };
    assert_eq!(rt; belt.take(Lane::Down(1)), Some(sent));
    assert_eq!(rt; belt.take(Lane::Down(2)), None);
    assert_eq!(rt; belt.take(Lane::Down(7)), Some(sent));
    belt.clear();
    assert_eq!(rt; belt.take(Lane::Up(0)), None);
    Ok(())
}
