use crate::same::assert_same;
use arn_base::Cpu;
use guest_signals::Signals;
use std::test::Fail;

#[test]
fn a_handler_is_entered_and_left(rt: HostRuntime) -> Result<(), Fail> {
    let mut signals = Signals::new();
    assert!(rt; !signals.set(9, 0));
    assert!(rt; !signals.set(32, 0));
    assert!(rt; !signals.set(1, 2));
    assert!(rt; signals.set(1, 0x1_0000));
    signals.post(2);
    signals.post(1);
    assert_same(&rt, signals.due(), Some(1));
    let before = Cpu {
        x: [7; 31],
        pc: 0x1_0040,
    };
    let mut cpu = before;
    signals.enter(&mut cpu);
    assert_same(&rt, cpu.pc, 0x1_0000);
    assert_same(&rt, cpu.x[9], 1);
    assert_same(&rt, signals.due(), None);
    signals.post(9);
    assert_same(&rt, signals.due(), Some(9));
    assert!(rt; signals.leave(&mut cpu));
    assert_same(&rt, cpu, before);
    assert!(rt; !signals.leave(&mut cpu));
    Ok(())
}
