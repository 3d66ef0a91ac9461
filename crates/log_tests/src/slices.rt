use crate::same::assert_same;
use schedule_log::{Delivery, GetError, get_signal, get_slice, put_signal, put_slice};
use std::test::Fail;

// Process 1 ran a million instructions; then signal 1 ended a call of process 2, whose handler is at
// the address 0x10004.
const BYTES: [u8; 24] = [
    5, 1, 0, 0, 0, 0x40, 0x42, 0x0f, 0, 6, 2, 0, 0, 0, 1, 1, 4, 0, 1, 0, 0, 0, 0, 0,
];

#[test]
fn a_slice_and_a_signal(rt: HostRuntime) -> Result<(), Fail> {
    let delivery = Delivery {
        pid: 2,
        signal: 1,
        cut: true,
        handler: 0x10004,
    };
    let mut out = Vec::new(rt.alloc());
    put_slice(&mut out, 1, 1_000_000)?;
    put_signal(&mut out, delivery)?;
    assert_same(&rt, out.as_slice(), BYTES.as_slice());
    assert_same(&rt, get_slice(&BYTES, 0), Ok((1, 1_000_000, 9)));
    assert_same(&rt, get_signal(&BYTES, 9), Ok((delivery, 24)));
    assert_same(
        &rt,
        get_slice(&BYTES, 9),
        Err(GetError::Malformed { at: 9 }),
    );
    assert_same(
        &rt,
        get_signal(&BYTES, 24),
        Err(GetError::Malformed { at: 24 }),
    );
    Ok(())
}
