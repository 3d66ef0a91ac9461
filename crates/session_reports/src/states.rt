// A process at a moment.
ghost use Rattle.std.specs.Prelude.{◌≡◌, ◌≢◌, ◌+◌, ◌≤◌, ◌++◌, OnErr, OnOk};
ghost use Rattle.std.specs.String.{string_bytes};
ghost use Rattle.history_index.specs.Indexes.{AreCountable, Indexes};
ghost use Rattle.replay_steps.specs.declared.errors.QueryError.TheVariants as query;
ghost use Rattle.session_reports.specs.Refused.{error_text};
ghost use Rattle.session_reports.specs.States.{show_mem_cost, show_mem_text, show_regs_cost, show_regs_text};

use arn_base::{NoMemory, Record, Steps};
use arn_lines::{Refusal, push_damaged, push_refusal};
use history_index::Index;
use past_lives::lives_have_groups;
use report_texts::{push_mem, push_regs};
use state_viewer::{QueryError, memory, registers};
use std::sync::ledger::Ledger;

/// Bytes that a process has at a moment.
#[derive(Clone, Copy)]
pub struct MemoryBytes {
    pub moment: u64,
    pub pid: u64,
    pub at: u64,
    pub len: u64,
}

// The same of a process and a length that 32 bits count.
#[derive(Clone, Copy)]
struct NearBytes {
    moment: u64,
    pid: u32,
    at: u64,
    len: u32,
}

/// Appends why nothing is told, unless memory ran out.
pub fn push_error(text: &mut String, error: QueryError) -> Result<(), NoMemory>
    ensures ok { OnOk result (string_bytes text.new ≡ string_bytes text.old ++ error_text error) }
    ensures known { OnOk result (error ≢ query.NoMemory) }
    ensures err { OnErr result (string_bytes text.new ≡ string_bytes text.old) }
{
    match error {
        QueryError::NoPoint => push_refusal(text, Refusal::NoPoint),
        QueryError::Disagrees(found) => push_damaged(text, found.event, found.said, found.found),
        QueryError::NoMemory => Err(NoMemory),
    }
}

fn push_regs_of<L: Ledger>(
    text: &mut String,
    entries: &[Record],
    index: &Index,
    moment: u64,
    pid: u32,
    steps: &mut Steps<L>,
) -> Result<(), NoMemory>
    requires countable { AreCountable entries.now }
    requires known { Indexes index.now entries.now }
    ensures ok { OnOk result (string_bytes text.new ≡
        string_bytes text.old ++ show_regs_text entries.now moment pid) }
    ensures err { OnErr result (string_bytes text.new ≡ string_bytes text.old) }
    ensures steps { steps.new ≤ steps.old + show_regs_cost entries.now moment pid }
{
    match registers(*text.allocator(), entries, index, moment, pid, steps) {
        Ok(cpu) => push_regs(text, &cpu),
        Err(error) => push_error(text, error),
    }
}

fn push_mem_of<L: Ledger>(
    text: &mut String,
    entries: &[Record],
    index: &Index,
    near: NearBytes,
    steps: &mut Steps<L>,
) -> Result<(), NoMemory>
    requires countable { AreCountable entries.now }
    requires known { Indexes index.now entries.now }
    ensures ok { OnOk result (string_bytes text.new ≡ string_bytes text.old
        ++ show_mem_text entries.now near.moment near.pid near.at near.len) }
    ensures err { OnErr result (string_bytes text.new ≡ string_bytes text.old) }
    ensures steps { steps.new ≤ steps.old
        + show_mem_cost entries.now near.moment near.pid near.at near.len }
{
    match memory(
        *text.allocator(),
        entries,
        index,
        near.moment,
        near.pid,
        near.at,
        near.len,
        steps,
    ) {
        Ok(bytes) => push_mem(text, bytes.as_slice()),
        Err(error) => push_error(text, error),
    }
}

/// Appends the registers of a process at a moment; or that its group's records disagree. Who doesn't
/// live at that moment is refused.
#[tactic(auto, using(crate::proofs::Few::far_process))]
pub fn report_regs<L: Ledger>(
    text: &mut String,
    entries: &[Record],
    index: &Index,
    moment: u64,
    pid: u64,
    steps: &mut Steps<L>,
) -> Result<(), NoMemory>
    requires countable { AreCountable entries.now }
    requires known { Indexes index.now entries.now }
    ensures ok { OnOk result (string_bytes text.new ≡
        string_bytes text.old ++ show_regs_text entries.now moment pid) }
    ensures err { OnErr result (string_bytes text.new ≡ string_bytes text.old) }
    ensures steps { steps.new ≤ steps.old + show_regs_cost entries.now moment pid }
{
    lives_have_groups();
    let Ok(pid) = u32::try_from(pid) else {
        return push_refusal(text, Refusal::NoPoint);
    };
    push_regs_of(text, entries, index, moment, pid, steps)
}

/// Appends bytes that a process has at a moment; or that its group's records disagree. Bytes that it
/// doesn't have then, or that are too many, are refused.
#[tactic(auto, using(crate::proofs::Few::far_process, crate::proofs::Few::far_range, crate::proofs::Few::long_range))]
pub fn report_mem<L: Ledger>(
    text: &mut String,
    entries: &[Record],
    index: &Index,
    bytes: MemoryBytes,
    steps: &mut Steps<L>,
) -> Result<(), NoMemory>
    requires countable { AreCountable entries.now }
    requires known { Indexes index.now entries.now }
    ensures ok { OnOk result (string_bytes text.new ≡ string_bytes text.old
        ++ show_mem_text entries.now bytes.moment bytes.pid bytes.at bytes.len) }
    ensures err { OnErr result (string_bytes text.new ≡ string_bytes text.old) }
    ensures steps { steps.new ≤ steps.old
        + show_mem_cost entries.now bytes.moment bytes.pid bytes.at bytes.len }
{
    lives_have_groups();
    let Ok(pid) = u32::try_from(bytes.pid) else {
        return push_refusal(text, Refusal::NoPoint);
    };
    let Ok(len) = u32::try_from(bytes.len) else {
        return push_refusal(text, Refusal::NoPoint);
    };
    let near = NearBytes {
        moment: bytes.moment,
        pid,
        at: bytes.at,
        len,
    };
    push_mem_of(text, entries, index, near, steps)
}
