use crate::records::file;
use arn_base::{Bytes, Cpu, Differs, Extra, Give, NoMemory, Origins, Record};
use report_texts::{
    push_event_line, push_events, push_file, push_group, push_groups, push_mem, push_proc,
    push_procs, push_regs, push_verify,
};
use std::alloc::Global;
use std::test::Fail;

#[test]
fn registers_are_written(rt: HostRuntime) -> Result<(), Fail> {
    let mut x = [0; 31];
    x[1] = 0x50000;
    x[9] = 3;
    x[30] = 1 << 63;
    let mut text = String::new(rt.alloc());
    push_regs(&mut text, &Cpu { x, pc: 0x10014 })?;
    assert_eq!(rt;
        text.as_str(),
        "regs 0000000000010014 \
        0000000000000000 0000000000050000 0000000000000000 0000000000000000 0000000000000000 \
        0000000000000000 0000000000000000 0000000000000000 0000000000000000 0000000000000003 \
        0000000000000000 0000000000000000 0000000000000000 0000000000000000 0000000000000000 \
        0000000000000000 0000000000000000 0000000000000000 0000000000000000 0000000000000000 \
        0000000000000000 0000000000000000 0000000000000000 0000000000000000 0000000000000000 \
        0000000000000000 0000000000000000 0000000000000000 0000000000000000 0000000000000000 \
        8000000000000000\n"
    );
    Ok(())
}

fn push_values(text: &mut String) -> Result<(), NoMemory> {
    push_mem(text, &[0x61, 0, 0xff])?;
    push_mem(text, &[])?;
    push_file(text, b"ZB")
}

fn push_totals(text: &mut String) -> Result<(), NoMemory> {
    push_proc(text, 3, 1)?;
    push_procs(text, 1)?;
    push_group(text, 2, 1, 999968)?;
    push_groups(text, 3)?;
    push_events(text, 9)
}

fn push_verdicts(text: &mut String) -> Result<(), NoMemory> {
    let differs = Differs {
        place: 22,
        at: 5,
        said: Some(22),
        found: None,
    };
    push_verify(text, None)?;
    push_verify(text, Some(differs))
}

#[test]
fn values_and_totals_are_written(rt: HostRuntime) -> Result<(), Fail> {
    let mut text = String::new(rt.alloc());
    push_values(&mut text)?;
    push_totals(&mut text)?;
    push_verdicts(&mut text)?;
    assert_eq!(rt;
        text.as_str(),
        "mem 6100ff\nmem -\nfile 5a42\nproc 3 group 1\nprocs 1\n\
        group 2 processes 1 instructions 999968\ngroups 3\nevents 9\nverify run\n\
        verify differs 22 5 22 -\n"
    );
    Ok(())
}

fn call(number: u64, answer: u64) -> Record {
    Record::Call {
        pid: 1,
        number,
        result: answer,
        extra: Extra::Nothing,
    }
}

fn boot(alloc: Global) -> Result<Record, NoMemory> {
    let give = Give {
        bytes: Bytes::new(alloc),
        origins: Origins::new(alloc),
    };
    Ok(Record::Boot {
        name: Bytes::from_slice(alloc, b"p")?,
        give,
    })
}

fn typed(alloc: Global) -> Result<Record, NoMemory> {
    Ok(Record::Typed {
        bytes: Bytes::from_slice(alloc, b"abc")?,
    })
}

fn signal() -> Record {
    Record::Signal {
        pid: 4,
        signal: 1,
        cut: false,
        handler: 0x10040,
    }
}

// The line of an event: its number, the moment, its record and how many bytes it has.
fn add(
    text: &mut String,
    event: u64,
    moment: u64,
    record: Record,
    len: u64,
) -> Result<(), NoMemory> {
    push_event_line(text, event, moment, &record, len)
}

#[test]
fn events_are_written(rt: HostRuntime) -> Result<(), Fail> {
    let alloc = rt.alloc();
    let mut text = String::new(alloc);
    add(&mut text, 0, 0, file(alloc)?, 2)?;
    add(&mut text, 1, 0, boot(alloc)?, 2)?;
    add(&mut text, 2, 0, typed(alloc)?, 3)?;
    add(&mut text, 3, 8, call(11, 5_u64.wrapping_neg()), 0)?;
    add(&mut text, 4, 14, call(11, 2), 2)?;
    add(&mut text, 5, 14, Record::Unplug { device: 7 }, 0)?;
    add(&mut text, 6, 17, signal(), 0)?;
    let end = Record::End {
        pid: 1,
        status: 132,
    };
    add(&mut text, 7, 18, end, 1)?;
    assert_eq!(rt;
        text.as_str(),
        "event 0 0 - file 2\nevent 1 0 1 boot 2\nevent 2 0 - type 3\n\
        event 3 8 1 call.11.-5 0\nevent 4 14 1 call.11.2 2\nevent 5 14 - unplug.7 0\n\
        event 6 17 4 signal.1 0\nevent 7 18 1 end.132 1\n"
    );
    Ok(())
}
