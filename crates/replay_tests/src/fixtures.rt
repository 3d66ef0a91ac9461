// Records of small histories, and replays of them.
ghost use Rattle.std.specs.Prelude.{◌≡◌, ◌<◌};
ghost use Rattle.history_index.specs.Indexes.{AreCountable, Indexes};

use acts_model::Observer;
use arn_base::{
    Blocks, Boxed, Bytes, Cpu, Extra, Give, NoMemory, Origin, Origins, Record, Start, Steps,
};
use history_index::{Index, IndexError, are_countable};
use parts_model::calls::FORK;
use replayer::{GroupState, ReplayError, replay};
use rv64_isa::Instr;
use std::alloc::Global;
use std::marker::Brand;
use std::process::Abort;
use std::sync::ledger::{Blank, Ledger};
use std::test::Fail;

// The header of an image with entry and load address 0x1_0000.
const HEADER: &[u8; 24] = b"ARNIMG01\0\0\x01\0\0\0\0\0\0\0\x01\0\0\0\0\0";

// addi x5, x5, 1, and jal x0, -4.
pub const LOOP: &[u8; 8] = b"\x93\x82\x12\0\x6f\xf0\xdf\xff";

// The image of a program.
pub fn image(alloc: Global, program: &[u8]) -> Result<Bytes, NoMemory> {
    let mut bytes = Bytes::from_slice(alloc, HEADER)?;
    bytes.extend_from_slice(program)?;
    Ok(bytes)
}

// Bytes that one event brought, all of them.
pub fn give(alloc: Global, bytes: &[u8], event: u64) -> Result<Give, NoMemory> {
    let len = u32::try_from(bytes.len()).unwrap_or(u32::MAX);
    let mut origins = Origins::new(alloc);
    origins.push(Origin { event, at: 0, len })?;
    let bytes = Bytes::from_slice(alloc, bytes)?;
    Ok(Give { bytes, origins })
}

fn file(alloc: Global, bytes: &[u8]) -> Result<Record, NoMemory> {
    let name = Bytes::from_slice(alloc, b"p")?;
    let bytes = Bytes::from_slice(alloc, bytes)?;
    Ok(Record::File { name, bytes })
}

fn boot(alloc: Global, bytes: &[u8]) -> Result<Record, NoMemory> {
    let name = Bytes::from_slice(alloc, b"p")?;
    let give = give(alloc, bytes, 0)?;
    Ok(Record::Boot { name, give })
}

// These records, and one behind them. Lists are handed on here, since each loan of a list makes a longer proof.
pub fn with(mut entries: Vec<Record>, last: Record) -> Result<Vec<Record>, NoMemory> {
    entries.push(last)?;
    Ok(entries)
}

// Process 1 was started from a file of these bytes.
pub fn booted(alloc: Global, bytes: &[u8]) -> Result<Vec<Record>, NoMemory> {
    let entries = with(Vec::new(alloc), file(alloc, bytes)?)?;
    with(entries, boot(alloc, bytes)?)
}

// Process 1 was started from a program.
pub fn started(alloc: Global, program: &[u8]) -> Result<Vec<Record>, NoMemory> {
    let bytes = image(alloc, program)?;
    booted(alloc, bytes.as_slice())
}

pub fn typed(alloc: Global, bytes: &[u8]) -> Result<Record, NoMemory> {
    let bytes = Bytes::from_slice(alloc, bytes)?;
    Ok(Record::Typed { bytes })
}

pub fn slice(pid: u32, ran: u32) -> Record {
    Record::Slice { pid, ran }
}

pub fn call(pid: u32, number: u64, answer: u64, extra: Extra) -> Record {
    Record::Call {
        pid,
        number,
        result: answer,
        extra,
    }
}

// A signal of number 2.
pub fn signal(pid: u32, handler: u64) -> Record {
    Record::Signal {
        pid,
        signal: 2,
        cut: false,
        handler,
    }
}

// How a process begins that starts a group, where it has no bytes.
pub fn start(alloc: Global, pc: u64) -> Result<Extra, NoMemory> {
    let blocks = Blocks::new(alloc);
    let cpu = Cpu { x: [0; 31], pc };
    let start = Start {
        cpu,
        slot: None,
        blocks,
    };
    Ok(Extra::Start(Boxed::new(alloc, start)?))
}

// Process 1 runs so many instructions, and then forks process 2, which starts a group.
pub fn forked(alloc: Global, program: &[u8], ran: u32) -> Result<Vec<Record>, NoMemory> {
    let entries = with(started(alloc, program)?, slice(1, ran))?;
    with(entries, call(1, FORK, 2, start(alloc, 0x1_0040)?))
}

// How often each call was made.
#[derive(Clone, Copy, Debug, PartialEq, Eq)]
pub struct Heard {
    pub begins: u32,
    pub instructions: u32,
    pub events: u32,
}

// Before any call.
pub const NOTHING_HEARD: Heard = Heard {
    begins: 0,
    instructions: 0,
    events: 0,
};

impl Observer for Heard {
    ghost use Rattle.std.specs.Prelude.{⊤};

    ghost begins = { λ _ _ _ _ _. ⊤ };

    ghost runs = { λ _ _ _ _ _. ⊤ };

    ghost hears = { λ _ _ _ _ _. ⊤ };

    fn begin(&mut self, _: u32, _: u64, _: Option<u32>) -> Result<(), NoMemory> {
        self.begins = self.begins.wrapping_add(1);
        Ok(())
    }

    fn instruction(&mut self, _: u32, _: &Instr, _: &Cpu) -> Result<(), NoMemory> {
        self.instructions = self.instructions.wrapping_add(1);
        Ok(())
    }

    fn happened(&mut self, _: u64, _: &Record, _: &Cpu) -> Result<(), NoMemory> {
        self.events = self.events.wrapping_add(1);
        Ok(())
    }
}

fn replay_counted<L: Ledger>(
    alloc: Global,
    entries: &[Record],
    index: &Index,
    group: u32,
    until: u64,
    heard: &mut Heard,
    blank: Blank,
) -> Result<GroupState, ReplayError>
    requires countable { AreCountable entries.now }
    requires indexed { Indexes index.now entries.now }
    requires name { blank.name ≡ L.name }
    requires parts { blank.parts ≡ L.parts }
    requires some { 0 < blank.parts }
{
    let mut steps = Steps::<L>::new(blank);
    replay(alloc, entries, index, group, until, heard, &mut steps)
}

fn replay_indexed(
    alloc: Global,
    entries: &[Record],
    index: &Index,
    group: u32,
    until: u64,
    heard: &mut Heard,
) -> Result<GroupState, ReplayError>
    requires countable { AreCountable entries.now }
    requires indexed { Indexes index.now entries.now }
{
    replay_counted::<Brand>(alloc, entries, index, group, until, heard, Blank::new(1))
}

// What a replay of a group ends with, by records that 32 bits count.
pub fn replayed(
    rt: &impl Abort,
    entries: &Vec<Record>,
    group: u32,
    until: u64,
    heard: &mut Heard,
) -> Result<Result<GroupState, ReplayError>, IndexError> {
    let alloc = *entries.allocator();
    let entries = entries.as_slice();
    assert!(rt; are_countable(entries));
    let index = Index::build(alloc, entries)?;
    Ok(replay_indexed(alloc, entries, &index, group, until, heard))
}

// A group at a moment.
pub fn group_at(
    rt: &impl Abort,
    entries: &Vec<Record>,
    group: u32,
    until: u64,
) -> Result<GroupState, Fail> {
    let mut heard = NOTHING_HEARD;
    Ok(replayed(rt, entries, group, until, &mut heard)??)
}
