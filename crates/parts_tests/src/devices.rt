use crate::same::assert_same;
use arn_base::{Bytes, Choice, Chooser, Device, Reply, Took};
use guest_devices::{
    Answer, Answers, EntropyDevice, ScriptDevice, ScriptReply, SeededChooser, Slots, unplug,
};
use host_clock::ClockDevice;
use std::process::Abort;
use std::test::Fail;
use std::time::{SystemTime, UNIX_EPOCH};

#[test]
fn words_fill_each_buffer(rt: HostRuntime) {
    let mut device = EntropyDevice::new(0);
    let mut buf = [0; 8];
    assert_same(&rt, device.ask(&mut buf), Reply::Gave(8));
    assert_same(&rt, buf, [0x66, 0x02, 0xa1, 0x7a, 0x6e, 0x2e, 0x1a, 0xfe]);
    let mut buf = [0; 3];
    assert_same(&rt, device.ask(&mut buf), Reply::Gave(3));
    assert_same(&rt, buf, [0x0c, 0x7f, 0x7c]);
}

fn assert_chooses(rt: &impl Abort, chooser: &mut SeededChooser, index: u32, count: u32) {
    assert_same(rt, chooser.choose(2), Choice { index, count });
}

#[test]
fn words_choose(rt: HostRuntime) {
    let mut chooser = SeededChooser::new(0);
    assert_chooses(&rt, &mut chooser, 257_813_417, 182);
    assert_chooses(&rt, &mut chooser, 896_943_092, 426);
    assert_chooses(&rt, &mut chooser, 2_864_827_017, 908);
    let mut chooser = SeededChooser::new(7);
    assert_chooses(&rt, &mut chooser, 2_215_483_850, 47);
    assert_chooses(&rt, &mut chooser, 1_954_657_312, 632);
}

fn script(rt: &impl AllocGlobal) -> Result<ScriptDevice, Fail> {
    let mut replies = Vec::new(rt.alloc());
    replies.push(ScriptReply::Fault)?;
    replies.push(ScriptReply::Bytes(Bytes::from_slice(rt.alloc(), &[1, 2, 3])?))?;
    Ok(ScriptDevice::new(rt.alloc(), replies, 3)?)
}

#[test]
fn a_script_is_used_up(rt: HostRuntime) -> Result<(), Fail> {
    let mut devices = vec![in rt.alloc(); Some(script(&rt)?)]?;
    let mut slots = Slots {
        devices: &mut devices,
    };
    let mut buf = [0; 2];
    assert_same(&rt, slots.ask(0, &mut buf), Answer::Fault);
    assert_same(&rt, slots.ask(0, &mut buf), Answer::Gave(2));
    assert_same(&rt, buf, [1, 2]);
    assert_same(&rt, slots.ask(0, &mut buf), Answer::Gave(0));
    assert_same(&rt, slots.put(0, &[7, 8]), Answer::Gave(2));
    assert_same(&rt, slots.put(0, &[7, 8]), Answer::Gave(1));
    assert_same(&rt, slots.ask(1, &mut buf), Answer::Absent);
    Ok(())
}

#[test]
fn a_box_is_unplugged_once(rt: HostRuntime) -> Result<(), Fail> {
    let device: Box<dyn Device> = Box::new(rt.alloc(), script(&rt)?)?;
    let mut devices = vec![in rt.alloc(); Some(device), None]?;
    assert!(rt; unplug(&mut devices, 0));
    assert!(rt; !unplug(&mut devices, 0));
    assert!(rt; !unplug(&mut devices, 1));
    assert!(rt; !unplug(&mut devices, 2));
    Ok(())
}

// The nanoseconds since 1970 by the clock of the host.
fn now(rt: &HostRuntime) -> Result<u128, Fail> {
    Ok(SystemTime::now(rt)?.duration_since(UNIX_EPOCH)?.as_nanos())
}

#[test]
fn the_clock_gives_the_time_of_the_host(rt: HostRuntime) -> Result<(), Fail> {
    let mut clock = ClockDevice::new(rt.clone()?);
    let mut long = [0xff; 10];
    let before = now(&rt)?;
    assert_same(&rt, clock.ask(&mut long), Reply::Gave(8));
    let after = now(&rt)?;
    assert_same(&rt, [long[8], long[9]], [0xff, 0xff]);
    let time = u128::from(u64::from_le_bytes([
        long[0], long[1], long[2], long[3], long[4], long[5], long[6], long[7],
    ]));
    assert!(rt; before <= time && time <= after);
    let mut short = [0xff; 3];
    assert_same(&rt, clock.ask(&mut short), Reply::Gave(3));
    assert_same(&rt, clock.put(&[1, 2]), Took::Count(2));
    Ok(())
}
