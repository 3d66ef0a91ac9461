// An instruction of a member by its number.
ghost use Rattle.std.specs.Prelude.{◌≡◌, length, IfSome, OnOk};
ghost use Rattle.parts_model.specs.Numbered.{nth};
ghost use Rattle.taint_spans.specs.Numbered.{StandAsBefore};
ghost use Rattle.taint_steps.specs.Table.{IsReady, RunsEntry, RunsMember};

use crate::running::run;
use arn_base::{Cpu, NoMemory};
use rv64_isa::Instr;
use rv64_model::Linkage;
use taint_members::MemberSets;
use taint_pages::SetNumbers;
use taint_spans::SpanSets;

/// A member runs an instruction that the next one follows, if there is one.
#[inline(always)]
fn run_entry(
    sets: &mut SpanSets,
    linkage: Linkage,
    instr: &Instr,
    before: &Cpu,
    entry: &mut Option<MemberSets>,
    memories: &mut [SetNumbers],
) -> Result<(), NoMemory>
    requires { IfSome entry.old (IsReady sets.old memories.old) }
    ensures runs { OnOk result (RunsEntry entry.old entry.new linkage instr.now before.now
        memories.old memories.new sets.old sets.new) }
    ensures before { StandAsBefore sets.old sets.new }
    ensures keys { length memories.new ≡ length memories.old }
{
    match entry {
        Some(member) => run(sets, linkage, instr, before, member, memories),
        None => Ok(()),
    }
}

/// The member of a number runs an instruction that the next one follows. Where there is no such member nothing is
/// changed.
#[inline(always)]
pub fn run_member(
    sets: &mut SpanSets,
    linkage: Linkage,
    instr: &Instr,
    before: &Cpu,
    pid: u32,
    members: &mut [Option<MemberSets>],
    memories: &mut [SetNumbers],
) -> Result<(), NoMemory>
    requires { IfSome (nth members.old pid) (IsReady sets.old memories.old) }
    ensures runs { OnOk result (RunsMember (nth members.old pid) pid linkage instr.now before.now
        record { members = members.old; memories = memories.old; sets = sets.old }
        record { members = members.new; memories = memories.new; sets = sets.new }) }
    ensures before { StandAsBefore sets.old sets.new }
    ensures members { length members.new ≡ length members.old }
    ensures keys { length memories.new ≡ length memories.old }
{
    let place = pid as usize;
    if place < members.len() {
        run_entry(sets, linkage, instr, before, &mut members[place], memories)
    } else {
        Ok(())
    }
}
