use crate::bench::{key, loading, refused, stock};
use keys::register::Register;
use std::test::Fail;

#[test]
fn loads_refused(rt: HostRuntime) -> Result<(), Fail> {
    let mut row = [key(0); 1];
    let mut register = Register::new(&mut row);
    let mut pool = loading(1)?;
    assert_eq!(rt; refused(pool.load(&mut register, stock(4, 7)?)), Some(6));
    assert_eq!(rt; register.len(), 0);
    assert_eq!(rt; refused(pool.load(&mut register, stock(2, 7)?)), None);
    assert_eq!(rt; refused(pool.load(&mut register, stock(2, 8)?)), Some(8));
    assert_eq!(rt; refused(pool.load(&mut register, stock(3, 7)?)), Some(4));
    Ok(())
}
