// Sessions whose programs read and write devices, and what is printed for them.
use crate::sessions::assert_ends;
use arn_base::{Bytes, Device, Disk, NoMemory, Numbers, Reply, Took};
use arn_session::Status;
use guest_devices::{ScriptDevice, ScriptReply};
use log_disk::{FuseDisk, MemDisk};
use session_trials::Script;
use std::process::Abort;
use std::test::Fail;

/// Opens device 0, and then reads two bytes from it over and over.
const READER: &str = "\
    asm p\n\
    li a7, 21; li a0, 0; ecall\n\
    again: ; li a7, 11; li a0, 3; addi a1, sp, -16; li a2, 2; ecall; j again\n\
    end\n\
    unplug 0\n\
    boot p\n\
    run 3\n\
    run 5\n\
    run 6\n\
    unplug 0\n\
    run 6\n\
    unplug 0\n\
    back copy mem 20 1 0x4fff0 2\n";

/// The device fails, and gives two of three bytes. When it is gone, a read of it fails too.
const READER_PRINTS: &str = "\
    event 0\n\
    no boot\n\
    event 1\n\
    ran 3 budget\n\
    ran 5 budget\n\
    ran 6 budget\n\
    event 5\n\
    ran 6 budget\n\
    no device\n\
    pair 4 0 0\n\
    pair 4 1 1\n\
    back pairs 2 instructions 20 groups 1\n";

/// What is asked of that, with no device, in a later session.
const LATER: &str = "\
    events\n\
    back copy mem 20 1 0x4fff0 2\n\
    forth copy 4 0 2\n\
    verify\n\
    unplug 0\n";

const LATER_PRINTS: &str = "\
    event 0 0 - file 60\n\
    event 1 0 1 boot 60\n\
    event 2 3 1 call.21.3 0\n\
    event 3 8 1 call.11.-5 0\n\
    event 4 14 1 call.11.2 2\n\
    event 5 14 - unplug.0 0\n\
    event 6 20 1 call.11.-19 0\n\
    events 7\n\
    pair 4 0 0\n\
    pair 4 1 1\n\
    back pairs 2 instructions 20 groups 1\n\
    forth pairs 0 instructions 20 groups 1\n\
    verify run\n\
    no device\n";

/// A new device in the slot of one that is gone isn't asked.
const AGAIN: &str = "\
    run 6\n\
    events\n\
    unplug 0\n\
    unplug 1\n\
    unplug 0x10000000000000000\n\
    unplug 18446744073709551615\n\
    unplug 01\n";

const AGAIN_PRINTS: &str = "\
    ran 6 budget\n\
    event 0 0 - file 60\n\
    event 1 0 1 boot 60\n\
    event 2 3 1 call.21.3 0\n\
    event 3 8 1 call.11.-5 0\n\
    event 4 14 1 call.11.2 2\n\
    event 5 14 - unplug.0 0\n\
    event 6 20 1 call.11.-19 0\n\
    event 7 26 1 call.11.-19 0\n\
    events 8\n\
    no device\n\
    event 8\n\
    no line\n\
    no device\n\
    no line\n";

/// Writes two typed bytes to device 0 three times, which takes three bytes in all.
const WRITER: &str = "\
    asm p\n\
    li a7, 21; li a0, 0; ecall\n\
    li a7, 11; li a0, 0; addi a1, sp, -16; li a2, 2; ecall\n\
    li a7, 12; li a0, 3; ecall\n\
    li a0, 3; ecall\n\
    li a0, 3; ecall\n\
    li a7, 1; li a0, 0; ecall\n\
    end\n\
    boot p\n\
    type 6162\n\
    run 100\n\
    events\n\
    forth copy 2 0 2\n";

const WRITER_PRINTS: &str = "\
    event 0\nevent 1\nevent 2\n\
    ran 18 done\n\
    event 0 0 - file 96\n\
    event 1 0 1 boot 96\n\
    event 2 0 - type 2\n\
    event 3 3 1 call.21.3 0\n\
    event 4 8 1 call.11.2 2\n\
    event 5 11 1 call.12.2 2\n\
    event 6 13 1 call.12.1 1\n\
    event 7 15 1 call.12.0 0\n\
    event 8 18 1 call.1.0 1\n\
    events 9\n\
    pair 5 0 0\n\
    pair 6 0 0\n\
    pair 5 1 1\n\
    forth pairs 3 instructions 18 groups 1\n";

/// Opens devices that aren't there, and one that is; reads and writes no bytes of it, and bytes at an address that no
/// window has; reads until it gives none. When it is gone, does so again by two descriptors, closes one, opens it again, and
/// opens others with all descriptors in use.
const REFUSED: &str = "\
    asm p\n\
    li a7, 21; li a0, 5; ecall\n\
    li a0, 1; slli a0, a0, 32; ecall\n\
    li a0, 0; ecall\n\
    li a7, 11; li a0, 3; li a1, 0; li a2, 0; ecall\n\
    li a0, 3; li a2, 4; ecall\n\
    li a7, 12; li a0, 3; li a2, 0; ecall\n\
    li a0, 3; li a2, 4; ecall\n\
    li a7, 14; li a0, 3; ecall\n\
    li a7, 11; li a0, 4; addi a1, sp, -16; li a2, 2; ecall\n\
    li a0, 3; ecall\n\
    li a0, 4; ecall\n\
    li a7, 22; ecall\n\
    li a7, 11; li a0, 4; ecall\n\
    li a0, 3; li a1, 0; ecall\n\
    li a0, 3; li a2, 0; ecall\n\
    li a7, 12; li a0, 3; addi a1, sp, -16; li a2, 2; ecall\n\
    li a7, 10; li a0, 3; ecall\n\
    li a7, 21; li a0, 0; ecall\n\
    li a0, 1; ecall\n\
    fill: ; li a7, 14; li a0, 3; ecall\n\
    blt a0, zero, full\n\
    j fill\n\
    full: ; li a7, 21; li a0, 1; ecall\n\
    li a0, 9; ecall\n\
    li a7, 1; li a0, 0; ecall\n\
    end\n\
    boot p\n\
    run 37\n\
    unplug 0\n\
    run 500\n\
    events\n";

/// What is printed for that, with two devices. The room for a descriptor is looked for before the device.
const REFUSED_PRINTS: &str = "\
    event 0\n\
    event 1\n\
    ran 37 budget\n\
    event 14\n\
    ran 89 done\n\
    event 0 0 - file 312\n\
    event 1 0 1 boot 312\n\
    event 2 3 1 call.21.-19 0\n\
    event 3 6 1 call.21.-19 0\n\
    event 4 8 1 call.21.3 0\n\
    event 5 13 1 call.11.0 0\n\
    event 6 16 1 call.11.-14 0\n\
    event 7 20 1 call.12.0 0\n\
    event 8 23 1 call.12.-14 0\n\
    event 9 26 1 call.14.4 0\n\
    event 10 31 1 call.11.-5 0\n\
    event 11 33 1 call.11.2 2\n\
    event 12 35 1 call.11.0 0\n\
    event 13 37 1 call.22.0 0\n\
    event 14 37 - unplug.0 0\n\
    event 15 40 1 call.11.-19 0\n\
    event 16 43 1 call.11.-14 0\n\
    event 17 46 1 call.11.0 0\n\
    event 18 51 1 call.12.-19 0\n\
    event 19 54 1 call.10.0 0\n\
    event 20 57 1 call.21.-19 0\n\
    event 21 59 1 call.21.3 0\n\
    event 22 62 1 call.14.5 0\n\
    event 23 67 1 call.14.6 0\n\
    event 24 72 1 call.14.7 0\n\
    event 25 77 1 call.14.8 0\n\
    event 26 82 1 call.14.9 0\n\
    event 27 87 1 call.14.10 0\n\
    event 28 92 1 call.14.11 0\n\
    event 29 97 1 call.14.12 0\n\
    event 30 102 1 call.14.13 0\n\
    event 31 107 1 call.14.14 0\n\
    event 32 112 1 call.14.15 0\n\
    event 33 117 1 call.14.-24 0\n\
    event 34 121 1 call.21.-24 0\n\
    event 35 123 1 call.21.-24 0\n\
    event 36 126 1 call.1.0 1\n\
    events 37\n";

/// A device that fails at each call.
#[derive(Drop)]
struct Broken;

impl Device for Broken {
    ghost use Rattle.std.specs.Prelude.{None, Some, true};
    ghost use Rattle.arn_base.specs.Device.{Faults};

    ghost replies = { λ _ _. Some Faults };

    ghost room = { λ _. None };

    ghost took = { λ _. None };

    ghost put_faults = { λ _ _. Some true };

    fn ask(&mut self, _buf: &mut [u8]) -> Reply {
        Reply::Fault
    }

    fn put(&mut self, _bytes: &[u8]) -> Took {
        Took::Fault
    }
}

/// Writes two bytes to device 0, and reads two; a child does so by the same descriptor.
const FAULTS: &str = "\
    asm p\n\
    li a7, 21; li a0, 0; ecall\n\
    li a7, 2; ecall\n\
    li a7, 12; li a0, 3; addi a1, sp, -16; li a2, 2; ecall\n\
    li a7, 11; li a0, 3; ecall\n\
    li a7, 1; li a0, 0; ecall\n\
    end\n\
    boot p\n\
    run 100\n\
    events\n";

const FAULTS_PRINTS: &str = "\
    event 0\n\
    event 1\n\
    ran 27 done\n\
    event 0 0 - file 88\n\
    event 1 0 1 boot 88\n\
    event 2 3 1 call.21.3 0\n\
    event 3 5 1 call.2.2 0\n\
    event 4 10 1 call.12.-5 0\n\
    event 5 15 2 call.12.-5 0\n\
    event 6 18 1 call.11.-5 0\n\
    event 7 21 2 call.11.-5 0\n\
    event 8 24 1 call.1.0 1\n\
    event 9 27 2 call.1.0 1\n\
    events 10\n";

/// A device that fills each buffer with aa and, from the second byte on, bb, and then counts far more bytes
/// than it gave or was handed.
#[derive(Drop)]
struct Boasting;

impl Device for Boasting {
    ghost use Rattle.std.specs.Prelude.{None};

    ghost replies = { λ _ _. None };

    ghost room = { λ _. None };

    ghost took = { λ _. None };

    ghost put_faults = { λ _ _. None };

    fn ask(&mut self, buf: &mut [u8]) -> Reply {
        let mut next = 0xaa;
        for byte in buf.iter_mut() {
            *byte = next;
            next = 0xbb;
        }
        Reply::Gave(u32::MAX)
    }

    fn put(&mut self, _bytes: &[u8]) -> Took {
        Took::Count(u32::MAX)
    }
}

/// Opens device 0, and then reads two bytes from it over and over.
const BOASTS: &str = "\
    asm p\n\
    li a7, 21; li a0, 0; ecall\n\
    again: ; li a7, 11; li a0, 3; addi a1, sp, -16; li a2, 2; ecall; j again\n\
    end\n\
    boot p\n\
    run 3\n\
    run 5\n\
    events\n\
    show 8 mem 1 0x4ffef 4\n\
    back copy mem 8 1 0x4fff0 2\n";

const BOASTS_PRINTS: &str = "\
    event 0\n\
    event 1\n\
    ran 3 budget\n\
    ran 5 budget\n\
    event 0 0 - file 60\n\
    event 1 0 1 boot 60\n\
    event 2 3 1 call.21.3 0\n\
    event 3 8 1 call.11.2 2\n\
    events 4\n\
    mem 00aabb00\n\
    pair 3 0 0\n\
    pair 3 1 1\n\
    back pairs 2 instructions 8 groups 1\n";

/// Opens device 0, and writes two bytes to it.
const HANDS: &str = "\
    asm p\n\
    li a7, 21; li a0, 0; ecall\n\
    li a7, 12; li a0, 3; addi a1, sp, -16; li a2, 2; ecall\n\
    li a7, 1; li a0, 0; ecall\n\
    end\n\
    boot p\n\
    run 100\n\
    events\n";

const HANDS_PRINTS: &str = "\
    event 0\n\
    event 1\n\
    ran 11 done\n\
    event 0 0 - file 68\n\
    event 1 0 1 boot 68\n\
    event 2 3 1 call.21.3 0\n\
    event 3 8 1 call.12.2 2\n\
    event 4 11 1 call.1.0 1\n\
    events 5\n";

/// What kind of device there is.
#[derive(Clone, Copy)]
enum Kind {
    /// Fails once, then gives three bytes at once, and takes three bytes.
    Scripted,
    /// Fails at each call.
    Broken,
    /// Counts more bytes than it was asked for or handed.
    Boasting,
}

fn scripted(rt: &impl AllocGlobal) -> Result<ScriptDevice, NoMemory> {
    let mut replies = Vec::new(rt.alloc());
    replies.push(ScriptReply::Fault)?;
    replies.push(ScriptReply::Bytes(Bytes::from_slice(rt.alloc(), &[1, 2, 3])?))?;
    ScriptDevice::new(rt.alloc(), replies, 3)
}

fn device(rt: &impl AllocGlobal, kind: Kind) -> Result<Box<dyn Device>, NoMemory> {
    let device: Box<dyn Device> = match kind {
        Kind::Scripted => Box::new(rt.alloc(), scripted(rt)?)?,
        Kind::Broken => Box::new(rt.alloc(), Broken)?,
        Kind::Boasting => Box::new(rt.alloc(), Boasting)?,
    };
    Ok(device)
}

/// Devices of these kinds in slots, from slot 0 on.
fn devices(
    rt: &impl AllocGlobal,
    kinds: &[Kind],
) -> Result<Vec<Option<Box<dyn Device>>>, NoMemory> {
    let mut slots = Vec::new(rt.alloc());
    for kind in kinds {
        slots.push(Some(device(rt, *kind)?))?;
    }
    Ok(slots)
}

/// A session with devices, what it prints, and which slots are filled then.
struct Session {
    text: &'static str,
    devices: &'static [Kind],
    prints: &'static str,
    filled: &'static [bool],
}

const SESSIONS: &[&[Session]] = &[
    // A device gives until it is unplugged, and a later session has another in its slot.
    &[
        Session {
            text: READER,
            devices: &[Kind::Scripted],
            prints: READER_PRINTS,
            filled: &[false],
        },
        Session {
            text: LATER,
            devices: &[],
            prints: LATER_PRINTS,
            filled: &[],
        },
        Session {
            text: AGAIN,
            devices: &[Kind::Scripted, Kind::Scripted],
            prints: AGAIN_PRINTS,
            filled: &[true, false],
        },
    ],
    // What is refused asks no device.
    &[Session {
        text: REFUSED,
        devices: &[Kind::Scripted, Kind::Scripted],
        prints: REFUSED_PRINTS,
        filled: &[false, true],
    }],
    // A device takes what fits.
    &[Session {
        text: WRITER,
        devices: &[Kind::Scripted],
        prints: WRITER_PRINTS,
        filled: &[true],
    }],
    // A device fails.
    &[Session {
        text: FAULTS,
        devices: &[Kind::Broken],
        prints: FAULTS_PRINTS,
        filled: &[true],
    }],
    // A count is cut to what was asked for.
    &[Session {
        text: BOASTS,
        devices: &[Kind::Boasting],
        prints: BOASTS_PRINTS,
        filled: &[true],
    }],
    &[Session {
        text: HANDS,
        devices: &[Kind::Boasting],
        prints: HANDS_PRINTS,
        filled: &[true],
    }],
];

/// Sessions with devices, one after the other on one log, print this.
fn assert_prints(
    rt: &(impl Abort + AllocGlobal),
    disk: &mut MemDisk,
    sessions: &[Session],
) -> Result<(), NoMemory> {
    for session in sessions {
        let script = Script::of(session.text.as_bytes());
        let slots = devices(rt, session.devices)?;
        let wanted = (Status::Done, session.prints, session.filled);
        assert_ends(rt, disk, &script, slots, wanted)?;
    }
    Ok(())
}

fn assert_devices(rt: &(impl Abort + AllocGlobal)) -> Result<(), NoMemory> {
    for sessions in SESSIONS {
        let mut disk = MemDisk::new(rt.alloc(), Bytes::new(rt.alloc()));
        assert_prints(rt, &mut disk, sessions)?;
    }
    Ok(())
}

#[test]
fn devices_give_and_take(rt: HostRuntime) -> Result<(), Fail> {
    Ok(assert_devices(&rt)?)
}

/// A device is unplugged behind two other events.
const UNPLUGGED: &str = "\
    asm p\n\
    ecall\n\
    end\n\
    boot p\n\
    unplug 0\n";

/// What is printed before the device is unplugged.
const BEFORE: &str = "event 0\nevent 1\n";

/// The session ends so behind that, and the device is gone then.
fn assert_gone<D: Disk>(
    rt: &(impl Abort + AllocGlobal),
    disk: &mut D,
    sink_fails: &[u32],
    status: Status,
) -> Result<(), NoMemory> {
    let script = Script {
        sink_fails,
        ..Script::of(UNPLUGGED.as_bytes())
    };
    let slots = devices(rt, &[Kind::Scripted])?;
    assert_ends(rt, disk, &script, slots, (status, BEFORE, &[false]))
}

/// So it does on an empty disk of which this call fails.
fn assert_uncommitted(rt: &(impl Abort + AllocGlobal), call: u32) -> Result<(), NoMemory> {
    let mut fails = Numbers::new(rt.alloc());
    fails.push(call)?;
    let mut disk = FuseDisk::new(rt.alloc(), Bytes::new(rt.alloc()), fails);
    assert_gone(rt, &mut disk, &[], Status::Disk)
}

#[test]
fn a_device_is_gone_though_the_commit_fails(rt: HostRuntime) -> Result<(), Fail> {
    // The opening takes four calls of the disk, and so does each commit.
    for call in 12..16 {
        assert_uncommitted(&rt, call)?;
    }
    Ok(())
}

/// What a later session is told of that.
const UNPLUGGED_EVENTS: &str = "\
    event 0 0 - file 28\n\
    event 1 0 1 boot 28\n\
    event 2 0 - unplug.0 0\n\
    events 3\n";

const LATER_UNPLUGGED: &[Session] = &[Session {
    text: "events\n",
    devices: &[Kind::Scripted],
    prints: UNPLUGGED_EVENTS,
    filled: &[true],
}];

fn assert_unanswered(rt: &(impl Abort + AllocGlobal)) -> Result<(), NoMemory> {
    let mut disk = MemDisk::new(rt.alloc(), Bytes::new(rt.alloc()));
    assert_gone(rt, &mut disk, &[2], Status::Sink)?;
    assert_prints(rt, &mut disk, LATER_UNPLUGGED)
}

#[test]
fn a_device_is_gone_though_the_answer_is_lost(rt: HostRuntime) -> Result<(), Fail> {
    Ok(assert_unanswered(&rt)?)
}
