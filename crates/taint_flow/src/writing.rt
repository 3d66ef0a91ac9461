// The sets of an instruction's result.
ghost use Rattle.std.specs.Prelude.{◌≡◌, ◌↔◌, ◌<◌, ℕ, List, [], IfOk, IfSome, IsTrue, length, replicate};
ghost use Rattle.rv64_isa.specs.declared.instruction.Instr.{Instr as AnyInstr};
ghost use Rattle.rv64_model.specs.declared.linkage.Linkage.{Linkage as AnyLinkage};
ghost use Rattle.rv64_model.specs.Carries.{Operand, operands};
ghost use Rattle.taint_spans.specs.Numbered.{IsSet, Numbered, StandAsBefore, members_of};
ghost use Rattle.taint_flow.specs.Even.{HaveLow, HaveOne, HaveTwo};
ghost use Rattle.taint_flow.specs.Flow.{Extends, IsFlow, IsWidth, Moves};
ghost use Rattle.taint_flow.specs.Gathered.{AreNumbers, byte_count, number_of};
ghost use Rattle.taint_flow.specs.Results.{AreResults};
ghost use Rattle.taint_flow.specs.Silent.{AreEmpty, IsSilent};

use crate::flow::{Flow, result_flow};
use crate::gathering::gather;
use crate::working::{bytewise, carried, rising, whole};
use arn_base::NoMemory;
use link_rules::inputs;
use rv64_isa::Instr;
use rv64_model::Linkage;
use taint_spans::SpanSets;

// The empty set for each byte.
#[inline(always)]
fn none(sets: &SpanSets) -> [u32; 8]
    ensures numbers { result ≡ replicate 8 0 }
    ensures empty { members_of sets.now 0 ≡ [] }
    ensures set { IsSet sets.now 0 }
{
    let _ = sets.empty();
    [0; 8]
}

// The first numbers as they are.
#[inline(always)]
fn moved(sets: &SpanSets, numbers: &[u32], count: u8) -> [u32; 8]
    requires { length numbers.now ≡ byte_count }
    ensures moves { Moves numbers.now count result }
    ensures empty { members_of sets.now 0 ≡ [] }
    ensures set { IsSet sets.now 0 }
{
    let _ = sets.empty();
    let mut moved = [0; 8];
    for byte in 0..8 {
        let number = numbers[byte];
        moved[byte] = if byte < usize::from(count) { number } else { 0 };
    }
    moved
}

// The first numbers as they are, and that of the last of them behind.
#[inline(always)]
fn extended(numbers: &[u32], width: usize) -> [u32; 8]
    requires numbers { length numbers.now ≡ byte_count }
    requires width { IsWidth width }
    ensures { Extends numbers.now width result }
{
    let mut extended = [0; 8];
    for byte in 0..8 {
        extended[byte] = numbers[byte.min(width - 1)];
    }
    extended
}

// Whether each byte has the empty set.
#[inline(always)]
fn is_empty(numbers: &[u32]) -> bool
    ensures { IsTrue result → AreEmpty numbers.now }
{
    numbers.iter().all(|number| *number == 0)
}

// The set that all bytes of a register have, where they have one.
#[inline(always)]
fn one_set(numbers: &[u32]) -> Option<u32>
    requires { length numbers.now ≡ byte_count }
    ensures { IfSome result (λ set. HaveOne numbers.now set) }
{
    let set = numbers[0];
    if numbers.iter().all(|number| *number == set) {
        Some(set)
    } else {
        None
    }
}

// The set that the lowest byte of a register has, where each other byte has that or none, as with a
// byte that was loaded and has no sign.
#[inline(always)]
fn low_set(numbers: &[u32]) -> Option<u32>
    requires { length numbers.now ≡ byte_count }
    ensures { IfSome result (λ set. HaveLow numbers.now set) }
{
    let set = numbers[0];
    if numbers.iter().all(|number| *number == set || *number == 0) {
        Some(set)
    } else {
        None
    }
}

// One set for each register that is read, whose union each byte of the result has. They are the same where one register is read.
// Where the lowest byte of a register is always among what is taken, it is enough that each other byte has its set or none.
#[inline(always)]
fn one_each(flow: Flow, first: &[u32], second: &[u32]) -> Option<(u32, u32)>
    requires first { length first.now ≡ byte_count }
    requires second { length second.now ≡ byte_count }
    ensures sets { (sets : Numbered) → AreNumbers sets first.now → AreNumbers sets second.now →
        IfSome result (λ two. IsSet sets two.0 × IsSet sets two.1) }
    ensures taken { (taken : ℕ → List Operand) (loaded : List ℕ) → IsFlow flow taken →
        IfSome result (λ two. (byte : ℕ) → byte < byte_count →
        HaveTwo (number_of first.now second.now loaded) (taken byte) two.0 two.1) }
{
    match flow {
        Flow::Rising(_) | Flow::Whole(_) => {
            let set = low_set(first)?;
            Some((set, set))
        }
        Flow::Carried(_) => {
            let left = low_set(first)?;
            let right = low_set(second)?;
            Some((left, right))
        }
        Flow::Bytewise => {
            let left = one_set(first)?;
            let right = one_set(second)?;
            Some((left, right))
        }
        _ => None,
    }
}

// The sets of any result, byte by byte. Bytes that take the same share their set. It gets the instruction by value, so that
// that of the caller needs no place in memory.
#[inline(never)]
fn mixed(
    sets: &mut SpanSets,
    linkage: Linkage,
    instr: Instr,
    first: &[u32],
    second: &[u32],
    loaded: &[u32],
) -> Result<[u32; 8], NoMemory>
    requires first { AreNumbers sets.old first.now }
    requires second { AreNumbers sets.old second.now }
    requires loaded { AreNumbers sets.old loaded.now }
    ensures results { IfOk result (AreResults sets.old sets.new
        (number_of first.now second.now loaded.now) (operands linkage instr)) }
    ensures before { StandAsBefore sets.old sets.new }
{
    let mut masks = inputs(linkage, &instr, 0);
    let mut set = gather(sets, masks, first, second, loaded)?;
    let mut numbers = [set; 8];
    for byte in 1..8 {
        let next = inputs(linkage, &instr, byte);
        if next != masks {
            set = gather(sets, next, first, second, loaded)?;
            masks = next;
        }
        numbers[byte as usize] = set;
    }
    Ok(numbers)
}

// The sets of what an instruction works out.
fn worked(
    sets: &mut SpanSets,
    flow: Flow,
    linkage: Linkage,
    instr: &Instr,
    first: &[u32],
    second: &[u32],
    loaded: &[u32],
) -> Result<[u32; 8], NoMemory>
    requires flow { IsFlow flow (operands linkage instr.now) }
    requires first { AreNumbers sets.old first.now }
    requires second { AreNumbers sets.old second.now }
    requires loaded { AreNumbers sets.old loaded.now }
    ensures results { IfOk result (AreResults sets.old sets.new
        (number_of first.now second.now loaded.now) (operands linkage instr.now)) }
    ensures before { StandAsBefore sets.old sets.new }
{
    if let Some((left, right)) = one_each(flow, first, second) {
        let _ = sets.empty();
        let set = sets.unite(left, right)?;
        return Ok([set; 8]);
    }
    match flow {
        Flow::Rising(width) => rising(sets, first, width),
        Flow::Carried(width) => carried(sets, first, second, width),
        Flow::Whole(width) => whole(sets, first, width),
        Flow::Bytewise => bytewise(sets, first, second),
        _ if is_empty(first) && is_empty(second) && is_empty(loaded) => Ok(none(sets)),
        _ => mixed(sets, linkage, *instr, first, second, loaded),
    }
}

/// The sets of the bytes that an instruction writes to its register, or of those that it stores: by the sets of
/// the bytes of rs1 and rs2, and of those that it loads.
#[inline(always)]
pub fn results(
    sets: &mut SpanSets,
    linkage: Linkage,
    instr: &Instr,
    first: &[u32],
    second: &[u32],
    loaded: &[u32],
) -> Result<[u32; 8], NoMemory>
    requires first { AreNumbers sets.old first.now }
    requires second { AreNumbers sets.old second.now }
    requires loaded { AreNumbers sets.old loaded.now }
    ensures results { IfOk result (AreResults sets.old sets.new
        (number_of first.now second.now loaded.now) (operands linkage instr.now)) }
    ensures before { StandAsBefore sets.old sets.new }
{
    let flow = result_flow(linkage, instr);
    match flow {
        Flow::Nothing => Ok(none(sets)),
        Flow::First => Ok(moved(sets, first, 8)),
        Flow::Second(count) => Ok(moved(sets, second, count)),
        Flow::Memory(count) => Ok(moved(sets, loaded, count)),
        Flow::Extended(width) => Ok(extended(loaded, width)),
        _ => worked(sets, flow, linkage, instr, first, second, loaded),
    }
}

/// Whether no byte of an instruction's result takes anything, and it accesses no memory. Then each has the empty set, and what its
/// registers have needs no look.
#[inline(always)]
pub fn is_silent(sets: &SpanSets, linkage: Linkage, instr: &Instr) -> bool
    ensures silent { IsTrue result ↔ IsSilent linkage instr.now }
    ensures results { IsTrue result → (first second loaded : List ℕ) →
        AreResults sets.now sets.now (number_of first second loaded) (operands linkage instr.now)
        (replicate 8 0) }
{
    let _ = none(sets);
    match instr {
        Instr::Load { .. } | Instr::Store { .. } => false,
        _ => matches!(result_flow(linkage, instr), Flow::Nothing),
    }
}

/// A law: where no byte that an instruction reads has a member, no byte of its result has one.
pub fn takes_nothing(sets: &SpanSets)
    ensures { (linkage : AnyLinkage) (instr : AnyInstr) (first second loaded : List ℕ) →
        AreEmpty first → AreEmpty second → AreEmpty loaded →
        AreResults sets.now sets.now (number_of first second loaded) (operands linkage instr)
        (replicate 8 0) }
{
    let _ = none(sets);
}
