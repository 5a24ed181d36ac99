use crate::bench::{Bench, key, refused};
use keys::register::Register;
use messages::kinds::{Demand, Kind, Message, Up};
use pool::loading::Loading;
use pool::opened::Opened;
use rules::plan::Plan;
use std::process::Abort;
use std::test::Fail;
use transport::belt::Belt;
use transport::lanes::Lane;

// Sixteen demands of a zone wait and nothing else does, and each of its starts was counted.
fn sixteen_wait(rt: &impl Abort, pool: &Opened<Belt>, zone: u8) {
    let last = Message {
        kind: Kind::Up(Up::Demand(Demand::GetSharedData)),
        place: 15,
    };
    assert_eq!(rt; pool.waiting_count(Lane::Up(zone)), 16);
    assert_eq!(rt; pool.waiting_at(Lane::Up(zone), 15), Some(last));
    assert_eq!(rt; pool.waiting_count(Lane::Down(zone)), 0);
    assert_eq!(rt; pool.counts(zone).map(|counts| counts.starts), Some(16));
}

fn belt_is_full(rt: &impl Abort, bench: &Bench<'_, Belt>) {
    for zone in 0..4u8 {
        sixteen_wait(rt, &bench.pool, zone);
    }
    assert_eq!(rt; bench.register.len(), 16);
}

#[test]
fn a_full_belt(rt: HostRuntime) -> Result<(), Fail> {
    let mut row = [key(0); 32];
    let plan = Plan::new(4, 32, 1)?;
    let mut bench = Bench {
        pool: Loading::new(plan, Belt::new()).open(),
        register: Register::new(&mut row),
    };
    for zone in 0..4u8 {
        bench.fill_up_lane(zone);
    }
    belt_is_full(&rt, &bench);
    assert_eq!(rt; refused(bench.ask(0, 1)), Some(11));
    belt_is_full(&rt, &bench);
    assert_eq!(rt; refused(bench.pool.deliver_up(3)), None);
    assert_eq!(rt; refused(bench.ask(0, 1)), None);
    assert_eq!(rt; bench.pool.waiting_count(Lane::Up(0)), 17);
    Ok(())
}
