// The processes that live at a moment.
ghost use Rattle.std.specs.Prelude.{◌≡◌, ◌++◌, IfOk, OnErr, OnOk, flat_map};
ghost use Rattle.std.specs.String.{string_bytes};
ghost use Rattle.history_index.specs.Indexes.{AreCountable, Indexes};
ghost use Rattle.session_reports.specs.Processes.{process_text, processes_text, show_procs_text};

use arn_base::{NoMemory, Record};
use arn_lines::{Refusal, push_refusal};
use history_index::Index;
use report_texts::{push_proc, push_procs};
use state_viewer::{VersionError, processes};
use std::alloc::Global;

fn push_one(
    lines: &mut String,
    _entries: &[Record],
    index: &Index,
    pid: u32,
) -> Result<(), NoMemory>
    requires known { Indexes index.now _entries.now }
    ensures { OnOk result
        (string_bytes lines.new ≡ string_bytes lines.old ++ process_text _entries.now pid) }
{
    match index.group_of(pid) {
        None => Ok(()),
        Some(group) => push_proc(lines, pid, group),
    }
}

// An error may leave some of them behind the lines.
fn push_each(
    lines: &mut String,
    entries: &[Record],
    index: &Index,
    pids: &[u32],
) -> Result<(), NoMemory>
    requires known { Indexes index.now entries.now }
    ensures { OnOk result (string_bytes lines.new ≡
        string_bytes lines.old ++ flat_map (process_text entries.now) pids.now) }
{
    for pid in pids {
        push_one(lines, entries, index, *pid)?;
    }
    Ok(())
}

fn living(
    alloc: Global,
    entries: &[Record],
    index: &Index,
    live: &[u32],
) -> Result<String, NoMemory>
    requires known { Indexes index.now entries.now }
    ensures { IfOk result (λ lines. string_bytes lines ≡ processes_text entries.now live.now) }
{
    let mut lines = String::new(alloc);
    push_each(&mut lines, entries, index, live)?;
    push_procs(&mut lines, live.len() as u64)?;
    Ok(lines)
}

fn push_living(
    text: &mut String,
    entries: &[Record],
    index: &Index,
    live: &[u32],
) -> Result<(), NoMemory>
    requires known { Indexes index.now entries.now }
    ensures ok { OnOk result (string_bytes text.new ≡
        string_bytes text.old ++ processes_text entries.now live.now) }
    ensures err { OnErr result (string_bytes text.new ≡ string_bytes text.old) }
{
    let lines = living(*text.allocator(), entries, index, live)?;
    Ok(text.push_str(lines.as_str())?)
}

/// Appends a line for each process that lives at a moment, in order of number, with its group; and behind
/// them how many there are. A moment that isn't in the history is refused.
pub fn report_procs(
    text: &mut String,
    entries: &[Record],
    index: &Index,
    moment: u64,
) -> Result<(), NoMemory>
    requires countable { AreCountable entries.now }
    requires known { Indexes index.now entries.now }
    ensures ok { OnOk result (string_bytes text.new ≡
        string_bytes text.old ++ show_procs_text entries.now moment) }
    ensures err { OnErr result (string_bytes text.new ≡ string_bytes text.old) }
{
    match processes(*text.allocator(), entries, index, moment) {
        Ok(live) => push_living(text, entries, index, live.as_slice()),
        Err(VersionError::NoMoment | VersionError::NoFile) => push_refusal(text, Refusal::NoPoint),
        Err(VersionError::NoMemory) => Err(NoMemory),
    }
}
