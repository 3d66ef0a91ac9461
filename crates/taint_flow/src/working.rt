// The sets of bytes that an operation works out from those of registers.
ghost use Rattle.std.specs.Prelude.{ℕ, List, IfOk, ◌++◌, ◌-◌, ◌<◌, slice_index};
ghost use Rattle.rv64_model.specs.Carries.{Left, Right, both, first_bytes};
ghost use Rattle.set_store.specs.Sets.{IsUnionOf};
ghost use Rattle.taint_spans.specs.Numbered.{IsSet, StandAsBefore, members_of};
ghost use Rattle.taint_flow.specs.Flow.{IsWidth, reach};
ghost use Rattle.taint_flow.specs.Gathered.{AreNumbers, Includes, byte_count, number_of};
ghost use Rattle.taint_flow.specs.Results.{AreResults};

use arn_base::NoMemory;
use taint_spans::SpanSets;

/// The set with the members of a byte's set besides. It has those of the byte below, if there is one: nothing new comes where
/// both have the same number.
#[inline(always)]
fn with_next(sets: &mut SpanSets, set: u32, numbers: &[u32], byte: usize) -> Result<u32, NoMemory>
    requires set { IsSet sets.old set }
    requires numbers { AreNumbers sets.old numbers.now }
    requires byte { byte < byte_count }
    requires below { 0 < byte → Includes sets.old set (slice_index numbers.now (byte - 1)) }
    ensures set { IfOk result (IsSet sets.new) }
    ensures members { IfOk result (λ more. IsUnionOf (members_of sets.new more)
        (members_of sets.old set) (members_of sets.old (slice_index numbers.now byte))) }
    ensures before { StandAsBefore sets.old sets.new }
{
    if byte > 0 && numbers[byte] == numbers[byte - 1] {
        return Ok(set);
    }
    sets.unite(set, numbers[byte])
}

/// Each byte of a result of so many bytes is worked out from that of the register and all below it; the bytes above are its sign.
pub fn rising(sets: &mut SpanSets, first: &[u32], width: usize) -> Result<[u32; 8], NoMemory>
    requires first { AreNumbers sets.old first.now }
    requires width { IsWidth width }
    ensures results { (second loaded : List ℕ) → IfOk result (AreResults sets.old sets.new
        (number_of first.now second loaded) (λ byte. first_bytes Left (reach width byte))) }
    ensures before { StandAsBefore sets.old sets.new }
{
    let _ = sets.empty();
    let mut set = 0;
    let mut numbers = [0; 8];
    for byte in 0..width {
        set = with_next(sets, set, first, byte)?;
        numbers[byte] = set;
    }
    for byte in width..8 {
        numbers[byte] = set;
    }
    Ok(numbers)
}

/// The same of two registers.
pub fn carried(
    sets: &mut SpanSets,
    first: &[u32],
    second: &[u32],
    width: usize,
) -> Result<[u32; 8], NoMemory>
    requires first { AreNumbers sets.old first.now }
    requires second { AreNumbers sets.old second.now }
    requires width { IsWidth width }
    ensures results { (loaded : List ℕ) → IfOk result (AreResults sets.old sets.new
        (number_of first.now second.now loaded)
        (λ byte. first_bytes Left (reach width byte) ++ first_bytes Right (reach width byte))) }
    ensures before { StandAsBefore sets.old sets.new }
{
    let _ = sets.empty();
    let mut set = 0;
    let mut numbers = [0; 8];
    for byte in 0..width {
        let lower = with_next(sets, set, first, byte)?;
        set = with_next(sets, lower, second, byte)?;
        numbers[byte] = set;
    }
    for byte in width..8 {
        numbers[byte] = set;
    }
    Ok(numbers)
}

/// Each byte is worked out from the lowest bytes of the register, so many as this says.
pub fn whole(sets: &mut SpanSets, first: &[u32], width: usize) -> Result<[u32; 8], NoMemory>
    requires first { AreNumbers sets.old first.now }
    requires width { IsWidth width }
    ensures results { (second loaded : List ℕ) → IfOk result (AreResults sets.old sets.new
        (number_of first.now second loaded) (λ byte. first_bytes Left width)) }
    ensures before { StandAsBefore sets.old sets.new }
{
    let numbers = rising(sets, first, width)?;
    Ok([numbers[7]; 8])
}

/// The set of a byte of both registers. It is that of the byte below where both have the same numbers there.
#[inline(always)]
fn in_place(
    sets: &mut SpanSets,
    below: u32,
    first: &[u32],
    second: &[u32],
    byte: usize,
) -> Result<u32, NoMemory>
    requires set { IsSet sets.old below }
    requires first { AreNumbers sets.old first.now }
    requires second { AreNumbers sets.old second.now }
    requires byte { byte < byte_count }
    requires below { 0 < byte → IsUnionOf (members_of sets.old below)
        (members_of sets.old (slice_index first.now (byte - 1)))
        (members_of sets.old (slice_index second.now (byte - 1))) }
    ensures set { IfOk result (IsSet sets.new) }
    ensures members { IfOk result (λ set. IsUnionOf (members_of sets.new set)
        (members_of sets.old (slice_index first.now byte))
        (members_of sets.old (slice_index second.now byte))) }
    ensures before { StandAsBefore sets.old sets.new }
{
    if byte > 0 && first[byte] == first[byte - 1] && second[byte] == second[byte - 1] {
        return Ok(below);
    }
    sets.unite(first[byte], second[byte])
}

/// Each byte is worked out from those of both registers in its place.
pub fn bytewise(sets: &mut SpanSets, first: &[u32], second: &[u32]) -> Result<[u32; 8], NoMemory>
    requires first { AreNumbers sets.old first.now }
    requires second { AreNumbers sets.old second.now }
    ensures results { (loaded : List ℕ) → IfOk result (AreResults sets.old sets.new
        (number_of first.now second.now loaded) both) }
    ensures before { StandAsBefore sets.old sets.new }
{
    let _ = sets.empty();
    let mut set = 0;
    let mut numbers = [0; 8];
    for byte in 0..8 {
        set = in_place(sets, set, first, second, byte)?;
        numbers[byte] = set;
    }
    Ok(numbers)
}
