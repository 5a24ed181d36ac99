use crate::bench::{Bench, key, opened, refused};
use keys::register::Register;
use std::test::Fail;

#[test]
fn numbers_end(rt: HostRuntime) -> Result<(), Fail> {
    let mut row = [key(0); 2];
    let mut register = Register::new(&mut row);
    let pool = opened(&mut register, 4_294_967_295)?;
    let mut bench = Bench { pool, register };
    let report = bench.ask(0, 0)?;
    assert_eq!(rt; report.number, Some(4_294_967_295));
    assert_eq!(rt; refused(bench.ask(0, 0)), Some(10));
    assert_eq!(rt; bench.pool.hit_share(0), Some(100));
    Ok(())
}

#[test]
fn a_full_up_lane(rt: HostRuntime) -> Result<(), Fail> {
    let mut row = [key(0); 32];
    let mut register = Register::new(&mut row);
    let pool = opened(&mut register, 1)?;
    let mut bench = Bench { pool, register };
    bench.ask_the_owner();
    bench.fill_up_lane(0);
    assert_eq!(rt; refused(bench.ask(0, 1)), Some(11));
    assert_eq!(rt; bench.register.len(), 17);
    assert_eq!(rt; refused(bench.pool.deliver_down(0)), Some(11));
    Ok(())
}

#[test]
fn a_let_go_needs_room(rt: HostRuntime) -> Result<(), Fail> {
    let mut row = [key(0); 32];
    let mut register = Register::new(&mut row);
    let pool = opened(&mut register, 1)?;
    let mut bench = Bench { pool, register };
    bench.ask_the_owner();
    assert_eq!(rt; refused(bench.pool.deliver_down(0)), None);
    bench.fill_up_lane(0);
    assert_eq!(rt; refused(bench.let_go(0, 0)), Some(11));
    Ok(())
}

#[test]
fn a_full_down_lane(rt: HostRuntime) -> Result<(), Fail> {
    let mut row = [key(0); 32];
    let mut register = Register::new(&mut row);
    let pool = opened(&mut register, 1)?;
    let mut bench = Bench { pool, register };
    bench.ask_the_owner();
    assert_eq!(rt; refused(bench.pool.deliver_down(0)), None);
    bench.fill_down_lane(1);
    assert_eq!(rt; refused(bench.pool.deliver_up(0)), Some(11));
    assert_eq!(rt; refused(bench.ask(1, 1)), None);
    assert_eq!(rt; refused(bench.pool.deliver_up(1)), None);
    assert_eq!(rt; refused(bench.take_up(1)), Some(11));
    Ok(())
}
