ghost use Rattle.history_index.specs.Indexes.{AreCountable, Indexes};

use crate::records::file;
use arn_base::{Blocks, Boxed, Bytes, Cpu, Extra, Give, NoMemory, Origin, Origins, Record, Start};
use history_index::{Index, are_countable};
use parts_model::calls::{FORK, READ};
use session_reports::{report_events, report_groups, report_procs};
use std::alloc::Global;
use std::test::Fail;

fn boot(alloc: Global) -> Result<Record, NoMemory> {
    let mut origins = Origins::new(alloc);
    origins.push(Origin {
        event: 0,
        at: 0,
        len: 2,
    })?;
    let give = Give {
        bytes: Bytes::from_slice(alloc, b"12")?,
        origins,
    };
    Ok(Record::Boot {
        name: Bytes::from_slice(alloc, b"p")?,
        give,
    })
}

fn fork(alloc: Global) -> Result<Record, NoMemory> {
    let start = Start {
        cpu: Cpu {
            x: [0; 31],
            pc: 0x10004,
        },
        slot: None,
        blocks: Blocks::new(alloc),
    };
    Ok(Record::Call {
        pid: 1,
        number: FORK,
        result: 2,
        extra: Extra::Start(Boxed::new(alloc, start)?),
    })
}

// A read from a device that fails.
fn fault() -> Record {
    Record::Call {
        pid: 2,
        number: READ,
        result: 5_u64.wrapping_neg(),
        extra: Extra::Fault,
    }
}

fn signal() -> Record {
    Record::Signal {
        pid: 1,
        signal: 2,
        cut: false,
        handler: 0x10040,
    }
}

fn end() -> Record {
    Record::End {
        pid: 1,
        status: 132,
    }
}

// Process 1 forks process 2, which starts a group and reads from a device that fails. Then process 1
// takes a signal, and ends by a fault.
fn history(alloc: Global) -> Result<Vec<Record>, NoMemory> {
    let file = file(alloc)?;
    let boot = boot(alloc)?;
    let fork = fork(alloc)?;
    let entries = [
        file,
        boot,
        Record::Slice { pid: 1, ran: 3 },
        fork,
        Record::Slice { pid: 2, ran: 4 },
        fault(),
        Record::Slice { pid: 1, ran: 2 },
        signal(),
        end(),
    ];
    Ok(Vec::from_array(alloc, entries)?)
}

// The groups, the events, and the processes at two moments.
fn reported(alloc: Global, entries: &[Record], index: &Index) -> Result<String, NoMemory>
    requires countable { AreCountable entries.now }
    requires known { Indexes index.now entries.now }
{
    let mut text = String::new(alloc);
    report_groups(&mut text, index)?;
    report_events(&mut text, entries, index)?;
    report_procs(&mut text, entries, index, 8)?;
    report_procs(&mut text, entries, index, 10)?;
    Ok(text)
}

#[test]
fn a_history_is_reported(rt: HostRuntime) -> Result<(), Fail> {
    let alloc = rt.alloc();
    let entries = history(alloc)?;
    let entries = entries.as_slice();
    assert!(rt; are_countable(entries));
    let index = Index::build(alloc, entries)?;
    let text = reported(alloc, entries, &index)?;
    assert_eq!(rt;
        text.as_str(),
        "group 1 processes 1 instructions 5\n\
        group 2 processes 1 instructions 4\ngroups 2\n\
        event 0 0 - file 2\nevent 1 0 1 boot 2\nevent 2 3 1 call.2.2 0\n\
        event 3 7 2 call.11.-5 0\nevent 4 7 1 signal.2 0\nevent 5 9 1 end.132 1\nevents 6\n\
        proc 1 group 1\nproc 2 group 2\nprocs 2\nno point\n"
    );
    Ok(())
}
