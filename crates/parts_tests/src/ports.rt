use crate::same::assert_same;
use guest_sockets::{Conn, PortError, Ports};
use std::test::Fail;

// The connection that takes pipes n and n + 1.
fn conn(n: u8) -> Conn {
    Conn {
        to_server: u32::from(n),
        to_client: u32::from(n) + 1,
    }
}

#[test]
fn a_port_is_listened_to_once(rt: HostRuntime) {
    let mut ports = Ports::new(rt.alloc());
    assert_same(&rt, ports.listen(80), Ok(()));
    assert_same(&rt, ports.listen(80), Err(PortError::InUse));
    assert_same(&rt, ports.listen(81), Ok(()));
}

#[test]
fn there_are_at_most_16_ports(rt: HostRuntime) {
    let mut ports = Ports::new(rt.alloc());
    for port in 0..16 {
        assert_same(&rt, ports.listen(port), Ok(()));
    }
    assert_same(&rt, ports.listen(16), Err(PortError::TooMany));
    assert_same(&rt, ports.listen(15), Err(PortError::InUse));
}

#[test]
fn at_most_eight_wait_at_a_port(rt: HostRuntime) {
    let mut ports = Ports::new(rt.alloc());
    assert!(rt; !ports.can_connect(80));
    assert_same(&rt, ports.connect(80, conn(0)), Err(PortError::Refused));
    assert_same(&rt, ports.listen(80), Ok(()));
    for n in 0..8 {
        assert!(rt; ports.can_connect(80));
        assert_same(&rt, ports.connect(80, conn(n)), Ok(()));
    }
    assert!(rt; !ports.can_connect(80));
    assert_same(&rt, ports.connect(80, conn(8)), Err(PortError::Refused));
}

#[test]
fn the_oldest_is_accepted_first(rt: HostRuntime) -> Result<(), Fail> {
    let mut ports = Ports::new(rt.alloc());
    assert_same(&rt, ports.accept(80), Err(PortError::NotReady));
    ports.listen(80)?;
    assert!(rt; !ports.can_accept(80));
    assert_same(&rt, ports.accept(80), Err(PortError::NotReady));
    for n in 0..3 {
        ports.connect(80, conn(n))?;
    }
    assert!(rt; ports.can_accept(80));
    assert_same(&rt, ports.accept(80), Ok(conn(0)));
    let waiting = ports.close(80);
    assert_same(&rt, waiting.as_slice(), [conn(1), conn(2)].as_slice());
    assert_same(&rt, ports.close(80).len(), 0);
    assert_same(&rt, ports.listen(80), Ok(()));
    assert!(rt; !ports.can_accept(80));
    Ok(())
}
