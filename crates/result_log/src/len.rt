// How long a record's spelling is, by the lengths of its lists.
ghost use Rattle.std.specs.Prelude.{◌≡◌, ◌<◌, ◌≤◌, ◌+◌, ◌^◌, length};
ghost use Rattle.schedule_log.specs.Fields.{counted, named, IsCounted, IsName};
ghost use Rattle.result_log.specs.Spelling.{extra_fields, spelling, ExtraHasSpelling, HasSpelling};
ghost use Rattle.result_log.specs.States.{block_fields, blocks_fields, cpu_fields, registers_fields, slot_fields, start_fields, StartHasSpelling};

use crate::starts::{BLOCK_LEN, REGISTERS};
use arn_base::{Block, Cpu, Extra, Record, Start};
use exchange_log::{MOST_GIVE, give_len};
use parts_model::limits::MOST_NAME_BYTES;

// How many bytes a record's kind takes, as the tag of what a call did does.
const KIND_LEN: u64 = 1;

// How many bytes tell the length of a name.
const NAME_COUNT_LEN: u64 = 1;

// How many bytes tell the length of any other list of bytes.
const COUNT_LEN: u64 = 4;

// How many bytes tell how many blocks there are.
const BLOCK_COUNT_LEN: u64 = 2;

// How many bytes the number of a block takes.
const BLOCK_NUMBER_LEN: u64 = 2;

// How many bytes the number of a process, a file, a device or of instructions takes, and a place.
const NUMBER_LEN: u64 = 4;

// How many bytes the number of a signal takes.
const SIGNAL_LEN: u64 = 1;

// How many bytes a flag takes.
const FLAG_LEN: u64 = 1;

// How many bytes an address takes.
const ADDRESS_LEN: u64 = 8;

// How many bytes a register takes.
const REGISTER_LEN: u64 = 8;

// How many bytes the number of a call takes, and as many its result.
const CALL_NUMBER_LEN: u64 = 8;

// How many bytes the status of a process takes.
const STATUS_LEN: u64 = 1;

// How many bytes a list of bytes has at most, with its length.
const MOST_COUNTED: u64 = COUNT_LEN + u32::MAX as u64;

fn named_len(name: &[u8]) -> u64
    requires { IsName name.now }
    ensures len { result ≡ length (named name.now) }
    ensures most { result ≤ NAME_COUNT_LEN + MOST_NAME_BYTES }
{
    NAME_COUNT_LEN + name.len() as u64
}

fn counted_len(bytes: &[u8]) -> u64
    requires { IsCounted bytes.now }
    ensures len { result ≡ length (counted bytes.now) }
    ensures most { result ≤ MOST_COUNTED }
{
    COUNT_LEN + bytes.len() as u64
}

fn registers_len(registers: &[u64; REGISTERS]) -> u64
    ensures len { result ≡ length (registers_fields registers.now) }
    ensures all { result ≡ 248 }
{
    REGISTER_LEN * registers.len() as u64
}

fn cpu_len(cpu: &Cpu) -> u64
    ensures len { result ≡ length (cpu_fields cpu.now) }
    ensures all { result ≡ 256 }
{
    registers_len(&cpu.x) + REGISTER_LEN
}

fn slot_len(slot: &Option<Cpu>) -> u64
    ensures len { result ≡ length (slot_fields slot.now) }
    ensures most { result ≤ 257 }
{
    match slot {
        Some(cpu) => FLAG_LEN + cpu_len(cpu),
        None => FLAG_LEN,
    }
}

fn page_len(page: &[u8; 256]) -> u64
    ensures len { result ≡ length page.now }
    ensures all { result ≡ 256 }
{
    page.len() as u64
}

fn block_len(block: &Block) -> u64
    ensures len { result ≡ length (block_fields block.now) }
    ensures all { result ≡ BLOCK_LEN }
{
    BLOCK_NUMBER_LEN + page_len(&block.bytes)
}

fn blocks_len(blocks: &[Block]) -> u64
    requires { length blocks.now < 2 ^ 16 }
    ensures len { result ≡ length (blocks_fields blocks.now) }
    ensures most { result < 2 ^ 25 }
{
    let mut len = BLOCK_COUNT_LEN;
    for block in blocks {
        len += block_len(block);
    }
    len
}

fn start_len(start: &Start) -> u64
    requires { StartHasSpelling start.now }
    ensures len { result ≡ length (start_fields start.now) }
    ensures most { result < 2 ^ 26 }
{
    cpu_len(&start.cpu) + slot_len(&start.slot) + blocks_len(start.blocks.as_slice())
}

fn extra_len(did: &Extra) -> u64
    requires { ExtraHasSpelling did.now }
    ensures len { result ≡ length (extra_fields did.now) }
    ensures most { result ≤ KIND_LEN + MOST_GIVE }
{
    match did {
        Extra::Nothing => KIND_LEN,
        Extra::Give(give) => KIND_LEN + give_len(give),
        Extra::Start(start) => KIND_LEN + start_len(start.get()),
        Extra::Put { bytes, .. } => KIND_LEN
            + NUMBER_LEN
            + NUMBER_LEN
            + counted_len(bytes.as_slice()),
        Extra::Console { bytes } => KIND_LEN + counted_len(bytes.as_slice()),
        Extra::Reply { bytes, .. } | Extra::Sent { bytes, .. } => {
            KIND_LEN + NUMBER_LEN + counted_len(bytes.as_slice())
        }
        Extra::Fault | Extra::Absent => KIND_LEN,
        Extra::Name { path, .. } => KIND_LEN + NUMBER_LEN + named_len(path.as_slice()),
    }
}

/// How many bytes a record's spelling has.
pub fn spelled_len(entry: &Record) -> u64
    requires { HasSpelling entry.now }
    ensures len { result ≡ length (spelling entry.now) }
    ensures few { result < 2 ^ 37 }
{
    match entry {
        Record::File { name, bytes } => {
            KIND_LEN + named_len(name.as_slice()) + counted_len(bytes.as_slice())
        }
        Record::Boot { name, give } => KIND_LEN + named_len(name.as_slice()) + give_len(give),
        Record::Typed { bytes } => KIND_LEN + counted_len(bytes.as_slice()),
        Record::Unplug { .. } => KIND_LEN + NUMBER_LEN,
        Record::Slice { .. } => KIND_LEN + NUMBER_LEN + NUMBER_LEN,
        Record::Signal { .. } => { KIND_LEN + NUMBER_LEN + SIGNAL_LEN + FLAG_LEN + ADDRESS_LEN }
        Record::Call { extra, .. } => {
            KIND_LEN + NUMBER_LEN + CALL_NUMBER_LEN + CALL_NUMBER_LEN + extra_len(extra)
        }
        Record::End { .. } => KIND_LEN + NUMBER_LEN + STATUS_LEN,
    }
}
