use crate::bench::{Bench, key, opened, refused};
use keys::register::Register;
use std::test::Fail;

#[test]
fn deliveries_refused(rt: HostRuntime) -> Result<(), Fail> {
    let mut row = [key(0); 2];
    let mut register = Register::new(&mut row);
    let pool = opened(&mut register, 1)?;
    let mut bench = Bench { pool, register };
    assert_eq!(rt; refused(bench.pool.deliver_up(4)), Some(6));
    assert_eq!(rt; refused(bench.pool.deliver_down(4)), Some(6));
    assert_eq!(rt; refused(bench.pool.deliver_up(3)), Some(14));
    assert_eq!(rt; refused(bench.pool.deliver_down(3)), Some(14));
    Ok(())
}

#[test]
fn take_ups_refused(rt: HostRuntime) -> Result<(), Fail> {
    let mut row = [key(0); 2];
    let mut register = Register::new(&mut row);
    let pool = opened(&mut register, 1)?;
    let mut bench = Bench { pool, register };
    assert_eq!(rt; refused(bench.take_up(9)), Some(13));
    assert_eq!(rt; refused(bench.take_up(0)), Some(16));
    bench.ask_the_owner();
    assert_eq!(rt; refused(bench.take_up(0)), Some(15));
    Ok(())
}

// A second register counts its places anew: its first key is at the place of the first register's first key.
#[test]
fn a_second_register(rt: HostRuntime) -> Result<(), Fail> {
    let mut row = [key(0); 2];
    let mut other_row = [key(0); 2];
    let pool = opened(&mut Register::new(&mut row), 1)?;
    let mut bench = Bench {
        pool,
        register: Register::new(&mut other_row),
    };
    assert_eq!(rt; refused(bench.take_up(0)), Some(13));
    assert!(rt; bench.pool.readable(&bench.register, 0, key(7)).is_none());
    assert_eq!(rt; refused(bench.ask(0, 7)), None);
    assert!(rt; bench.pool.readable(&bench.register, 0, key(7)).is_some());
    Ok(())
}
