// What a record tells that its process does.
ghost use Rattle.std.specs.Prelude.{◌≡◌, ◌<◌, option_map};
ghost use Rattle.acts_model.specs.Deeds.{deed_as};
ghost use Rattle.acts_model.specs.Told.{act_of, call_act, delivery_act, exec_act, fork_act, kind_of, read_act, wait_act, write_act};
ghost use Rattle.acts_model.specs.Views as views;

use crate::told::is_success;
use arn_base::{Cpu, Extra, Record};
use parts_model::calls;
use parts_model::limits::MOST_TRANSFER;

/// What a process does at an event. Its bytes are those that the event's record holds.
#[derive(Clone, Copy)]
pub enum Deed<'a> {
    /// A call that moves no bytes ends with a result.
    Returns {
        result: u64,
    },
    /// It received bytes at an address.
    Receives {
        at: u64,
        bytes: &'a [u8],
        result: u64,
    },
    /// It gave so many bytes from an address.
    Gives {
        at: u64,
        len: u64,
        result: u64,
    },
    /// It starts anew from an image file. Its argument block is given by its address in the old
    /// memory.
    Starts {
        file: &'a [u8],
        block: u64,
        block_len: u64,
    },
    /// It makes a child in its own group.
    Forks {
        child: u64,
    },
    /// It makes a child that starts a group.
    Founds {
        child: u64,
    },
    /// It gets a fresh segment.
    Shares,
    /// It leaves a handler.
    Leaves,
    /// A handler begins. `cut` says that this ended a call that wasn't ready.
    Delivers {
        signal: u8,
        handler: u64,
        cut: bool,
    },
    /// It ends by a call.
    Exits,
    /// It ends by a fault.
    Faults {
        status: u8,
    },
    /// It ends by a signal.
    Dies {
        signal: u8,
        cut: bool,
    },
}

/// The number of the call at which a process stands.
pub fn call_number(cpu: &Cpu) -> u64
    ensures { result ≡ views.call_number cpu.now }
{
    cpu.x[16]
}

/// The argument of a call at a place from 0.
pub fn argument(cpu: &Cpu, place: usize) -> u64
    requires { place < 7 }
    ensures { result ≡ views.argument cpu.now place }
{
    cpu.x[9 + place]
}

fn fork(answer: u64, extra: &Extra) -> Deed<'_>
    ensures { deed_as result ≡ fork_act answer extra.now }
{
    match extra {
        _ if !is_success(answer) => Deed::Returns { result: answer },
        Extra::Start(_) => Deed::Founds { child: answer },
        _ => Deed::Forks { child: answer },
    }
}

fn exec<'a>(before: &Cpu, answer: u64, extra: &'a Extra) -> Deed<'a>
    ensures { deed_as result ≡ exec_act before.now answer extra.now }
{
    match extra {
        Extra::Give(give) => Deed::Starts {
            file: give.bytes.as_slice(),
            block: argument(before, 2),
            block_len: argument(before, 3),
        },
        _ => Deed::Returns { result: answer },
    }
}

fn wait<'a>(before: &Cpu, answer: u64, extra: &'a Extra) -> Deed<'a>
    ensures { deed_as result ≡ wait_act before.now answer extra.now }
{
    match extra {
        Extra::Give(give) => Deed::Receives {
            at: argument(before, 0),
            bytes: give.bytes.as_slice(),
            result: answer,
        },
        _ => Deed::Returns { result: answer },
    }
}

fn read<'a>(before: &Cpu, answer: u64, extra: &'a Extra) -> Deed<'a>
    ensures { deed_as result ≡ read_act before.now answer extra.now }
{
    let bytes = match extra {
        Extra::Give(give) => give.bytes.as_slice(),
        Extra::Reply { bytes, .. } => bytes.as_slice(),
        _ => return Deed::Returns { result: answer },
    };
    Deed::Receives {
        at: argument(before, 1),
        bytes,
        result: answer,
    }
}

fn write<'a>(before: &Cpu, answer: u64, extra: &'a Extra) -> Deed<'a>
    ensures { deed_as result ≡ write_act before.now answer extra.now }
{
    let len = match extra {
        Extra::Put { bytes, .. } | Extra::Console { bytes } | Extra::Sent { bytes, .. } => {
            bytes.len() as u64
        }
        Extra::Nothing if 1 <= answer && answer <= MOST_TRANSFER => answer,
        _ => return Deed::Returns { result: answer },
    };
    Deed::Gives {
        at: argument(before, 1),
        len,
        result: answer,
    }
}

/// What the call of a number does, by the registers before it, its result and what else its record
/// holds.
pub fn call_deed<'a>(before: &Cpu, number: u64, answer: u64, extra: &'a Extra) -> Deed<'a>
    ensures { deed_as result ≡ call_act (kind_of number) before.now answer extra.now }
{
    match number {
        calls::EXIT => Deed::Exits,
        calls::FORK => fork(answer, extra),
        calls::EXEC => exec(before, answer, extra),
        calls::WAIT => wait(before, answer, extra),
        calls::SIGRETURN if answer == 0 => Deed::Leaves,
        calls::READ => read(before, answer, extra),
        calls::WRITE => write(before, answer, extra),
        calls::SHM if answer == 0 => Deed::Shares,
        _ => Deed::Returns { result: answer },
    }
}

fn delivery(signal: u8, handler: u64, cut: bool) -> Deed<'static>
    ensures { deed_as result ≡ delivery_act signal handler cut }
{
    if handler == 0 {
        Deed::Dies { signal, cut }
    } else {
        Deed::Delivers {
            signal,
            handler,
            cut,
        }
    }
}

/// What a record tells that its process does, by the registers before it.
pub fn deed_of<'a>(before: &Cpu, entry: &'a Record) -> Option<Deed<'a>>
    ensures { option_map deed_as result ≡ act_of before.now entry.now }
{
    match entry {
        Record::Boot { give, .. } => Some(Deed::Starts {
            file: give.bytes.as_slice(),
            block: 0,
            block_len: 0,
        }),
        Record::Signal {
            signal,
            cut,
            handler,
            ..
        } => Some(delivery(*signal, *handler, *cut)),
        Record::Call {
            number,
            result,
            extra,
            ..
        } => Some(call_deed(before, *number, *result, extra)),
        Record::End { status, .. } => Some(Deed::Faults { status: *status }),
        Record::File { .. } | Record::Typed { .. } | Record::Unplug { .. } | Record::Slice { .. } =>
            None,
    }
}
