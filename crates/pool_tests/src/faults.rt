use crate::bench::{Bench, key, opened, refused};
use calls::faults::Fault;
use calls::reports::Report;
use keys::register::Register;
use messages::refusals::Layer;
use std::test::Fail;

// What a refusal tells: its number, its layer, and the zone and the place that it names.
#[derive(Clone, Copy, PartialEq, Eq, Debug)]
struct Facts {
    number: u8,
    layer: Layer,
    zone: Option<u8>,
    place: Option<u8>,
}

// None where nothing was refused.
fn told(res: Result<Report, Fault>) -> Option<Facts> {
    let fault = res.err()?;
    Some(Facts {
        number: fault.number(),
        layer: fault.layer(),
        zone: fault.zone(),
        place: fault.place(),
    })
}

#[test]
fn faults_of_the_pool(rt: HostRuntime) -> Result<(), Fail> {
    let mut row = [key(0); 2];
    let mut register = Register::new(&mut row);
    let pool = opened(&mut register, 1)?;
    let mut bench = Bench { pool, register };
    let no_zone = Facts {
        number: 6,
        layer: Layer::Pool,
        zone: Some(4),
        place: None,
    };
    assert_eq!(rt; told(bench.ask(4, 0)), Some(no_zone));
    let unknown_key = Facts {
        number: 13,
        layer: Layer::Pool,
        zone: None,
        place: None,
    };
    assert_eq!(rt; told(bench.take_up(9)), Some(unknown_key));
    bench.ask_the_owner();
    let served = Facts {
        number: 15,
        layer: Layer::Pool,
        zone: None,
        place: Some(0),
    };
    assert_eq!(rt; told(bench.take_up(0)), Some(served));
    Ok(())
}

#[test]
fn fault_of_a_full_up_lane(rt: HostRuntime) -> Result<(), Fail> {
    let mut row = [key(0); 32];
    let mut register = Register::new(&mut row);
    let pool = opened(&mut register, 1)?;
    let mut bench = Bench { pool, register };
    bench.fill_up_lane(2);
    let full = Facts {
        number: 11,
        layer: Layer::Transport,
        zone: Some(2),
        place: None,
    };
    assert_eq!(rt; told(bench.ask(2, 1)), Some(full));
    Ok(())
}

// Seventeen keys have the places before that of key 1.
#[test]
fn fault_of_a_full_down_lane(rt: HostRuntime) -> Result<(), Fail> {
    let mut row = [key(0); 32];
    let mut register = Register::new(&mut row);
    let pool = opened(&mut register, 1)?;
    let mut bench = Bench { pool, register };
    bench.fill_down_lane(2);
    assert_eq!(rt; refused(bench.ask(2, 1)), None);
    assert_eq!(rt; refused(bench.pool.deliver_up(2)), None);
    let full = Facts {
        number: 11,
        layer: Layer::Transport,
        zone: None,
        place: Some(17),
    };
    assert_eq!(rt; told(bench.take_up(1)), Some(full));
    Ok(())
}
