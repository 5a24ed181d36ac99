use crate::bench::{Bench, key, opened, refused};
use keys::register::Register;
use rules::board::PauseBoard;
use std::test::Fail;

#[test]
fn starts_refused(rt: HostRuntime) -> Result<(), Fail> {
    let mut row = [key(0); 2];
    let mut register = Register::new(&mut row);
    let pool = opened(&mut register, 1)?;
    let mut bench = Bench { pool, register };
    let mut board = PauseBoard::new();
    board.mark(2, true);
    assert_eq!(rt; refused(bench.ask_under(&board, 4, 1)), Some(6));
    assert_eq!(rt; refused(bench.ask_under(&board, 2, 1)), Some(7));
    assert_eq!(rt; bench.register.len(), 1);
    assert_eq!(rt; refused(bench.ask(1, 1)), None);
    assert_eq!(rt; refused(bench.ask(1, 2)), Some(8));
    assert_eq!(rt; refused(bench.ask(1, 1)), Some(9));
    Ok(())
}

#[test]
fn let_gos_refused(rt: HostRuntime) -> Result<(), Fail> {
    let mut row = [key(0); 2];
    let mut register = Register::new(&mut row);
    let pool = opened(&mut register, 1)?;
    let mut bench = Bench { pool, register };
    assert_eq!(rt; refused(bench.let_go(4, 0)), Some(6));
    assert_eq!(rt; refused(bench.let_go(0, 9)), Some(13));
    assert_eq!(rt; refused(bench.let_go(0, 0)), Some(12));
    Ok(())
}

#[test]
fn a_shared_copy_is_let_go(rt: HostRuntime) -> Result<(), Fail> {
    let mut row = [key(0); 2];
    let mut register = Register::new(&mut row);
    let pool = opened(&mut register, 1)?;
    let mut bench = Bench { pool, register };
    bench.ask_the_owner();
    assert_eq!(rt; refused(bench.pool.deliver_down(0)), None);
    assert_eq!(rt; refused(bench.let_go(0, 0)), None);
    assert_eq!(rt; refused(bench.pool.deliver_up(0)), None);
    assert_eq!(rt; refused(bench.pool.deliver_down(1)), None);
    assert!(rt; bench.pool.readable(&bench.register, 1, key(0)).is_some());
    assert!(rt; !bench.pool.holds_exclusively(&bench.register, 1, key(0)));
    assert!(rt; !bench.pool.is_quiet());
    assert_eq!(rt; refused(bench.pool.deliver_up(0)), None);
    assert!(rt; bench.pool.is_quiet());
    assert_eq!(rt; bench.pool.hit_share(1), Some(0));
    assert_eq!(rt; bench.pool.hit_share(4), None);
    Ok(())
}
