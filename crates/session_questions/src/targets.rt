// What the engine is asked for bytes that are sought.
ghost use Rattle.std.specs.Prelude.{◌≡◌, ◌⊎◌, ◌≤◌, ◌^◌, false, IfNone, IfOk, IfSome};
ghost use Rattle.history_index.specs.Indexes.{AreCountable, Indexes};
ghost use Rattle.history_model.specs.Events.{event_at, is_range};
ghost use Rattle.query_engine.specs.declared.engine.Target.TheVariants as target;
ghost use Rattle.rv64_model.specs.declared.linkage.Linkage.{Linkage};
ghost use Rattle.session_questions.specs.Texts.{back_telling, target_telling};

use arn_base::{Bytes, NoMemory, Record};
use arn_lines::Sought;
use history_index::Index;
use query_engine::Target;
use session_reports::far_is_nowhere;
use std::alloc::Global;

// Bytes of an event: none where 32 bits don't count them, since no event has these.
#[tactic(auto, using(crate::proofs::Ranges::far_away))]
pub(crate) fn event_target(_entries: &[Record], event: u64, from: u64, len: u64) -> Option<Target>
    requires countable { AreCountable _entries.now }
    ensures some { IfSome result (λ found. found ≡ target.Event event from len) }
    ensures none { IfNone result (is_range (event_at _entries.now event) from len ≡ false) }
{
    let Ok(from) = u32::try_from(from) else {
        return None;
    };
    let Ok(len) = u32::try_from(len) else {
        return None;
    };
    Some(Target::Event { event, from, len })
}

// Bytes of memory: none where 32 bits don't count the process, or the bytes.
fn memory_target(moment: u64, pid: u64, at: u64, len: u64) -> Option<Target>
    ensures some { IfSome result (λ found. found ≡ target.Mem moment pid at len) }
    ensures none { IfNone result ((2 ^ 32 ≤ pid) ⊎ (2 ^ 32 ≤ len)) }
{
    let Ok(pid) = u32::try_from(pid) else {
        return None;
    };
    let Ok(len) = u32::try_from(len) else {
        return None;
    };
    Some(Target::Mem {
        moment,
        pid,
        at,
        len,
    })
}

// Those of a register: none where 32 bits don't count the process, or 8 bits the register.
fn register_target(moment: u64, pid: u64, register: u64) -> Option<Target>
    ensures some { IfSome result (λ found. found ≡ target.Reg moment pid register) }
    ensures none { IfNone result ((2 ^ 32 ≤ pid) ⊎ (2 ^ 8 ≤ register)) }
{
    let Ok(pid) = u32::try_from(pid) else {
        return None;
    };
    let Ok(reg) = u8::try_from(register) else {
        return None;
    };
    Some(Target::Reg { moment, pid, reg })
}

// Bytes of a file: none where 32 bits don't count them.
fn name_target(
    alloc: Global,
    moment: u64,
    name: &[u8],
    from: u64,
    len: u64,
) -> Result<Option<Target>, NoMemory>
    ensures some { IfOk result (λ made. IfSome made (λ found.
        found ≡ target.Name moment name.now from len)) }
    ensures none { IfOk result (λ made. IfNone made (2 ^ 32 ≤ len)) }
{
    let Ok(len) = u32::try_from(len) else {
        return Ok(None);
    };
    let name = Bytes::from_slice(alloc, name)?;
    Ok(Some(Target::Name {
        moment,
        name,
        from,
        len,
    }))
}

// The target that bytes are which are sought: none where their numbers are so large that nothing has
// such bytes.
pub(crate) fn target_of(
    alloc: Global,
    entries: &[Record],
    _index: &Index,
    sought: &Sought,
) -> Result<Option<Target>, NoMemory>
    requires countable { AreCountable entries.now }
    requires known { Indexes _index.now entries.now }
    ensures { IfOk result (λ found. (linkage : Linkage) →
        back_telling entries.now linkage sought.now ≡ target_telling linkage entries.now found) }
{
    far_is_nowhere();
    match sought {
        Sought::Event { event, from, len } => Ok(event_target(entries, *event, *from, *len)),
        Sought::Memory {
            moment,
            pid,
            at,
            len,
        } => Ok(memory_target(*moment, *pid, *at, *len)),
        Sought::Register {
            moment,
            pid,
            register,
        } => Ok(register_target(*moment, *pid, *register)),
        Sought::Name {
            moment,
            name,
            from,
            len,
        } => name_target(alloc, *moment, name.as_slice(), *from, *len),
    }
}
