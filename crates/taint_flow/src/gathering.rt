// The set of several bytes.
ghost use Rattle.std.specs.Prelude.{◌≡◌, ◌-◌, ◌<◌, if◌then◌else◌, IfOk, IsTrue, slice_index};
ghost use Rattle.set_store.specs.Sets.{IsUnionOf};
ghost use Rattle.taint_spans.specs.Numbered.{IsSet, StandAsBefore, members_of};
ghost use Rattle.link_rules.specs.Masks.{has_byte};
ghost use Rattle.taint_flow.specs.Gathered.{AreNumbers, AddsByte, Gathers, Includes, TakesBytes, byte_count};

use arn_base::NoMemory;
use link_rules::Operands;
use taint_spans::SpanSets;

/// All bytes of a register.
const ALL: u8 = 0b1111_1111;

/// Whether a mask has a byte.
#[inline(always)]
fn has(mask: u8, byte: u8) -> bool
    requires { byte < 8 }
    ensures { result ≡ has_byte mask byte }
{
    (mask >> byte) & 1 == 1
}

/// The set with the members of a byte's set besides, where a mask has the byte. It has those of the byte below, if the
/// mask has that: nothing new comes where both have the same number.
#[inline(always)]
fn with_byte(
    sets: &mut SpanSets,
    set: u32,
    mask: u8,
    byte: u8,
    numbers: &[u32],
) -> Result<u32, NoMemory>
    requires byte { byte < 8 }
    requires set { IsSet sets.old set }
    requires numbers { AreNumbers sets.old numbers.now }
    requires below { 0 < byte → IsTrue (has_byte mask (byte - 1)) →
        Includes sets.old set (slice_index numbers.now (byte - 1)) }
    ensures adds { IfOk result
        (AddsByte sets.old sets.new set mask byte (slice_index numbers.now byte)) }
    ensures before { StandAsBefore sets.old sets.new }
{
    if !has(mask, byte) {
        return Ok(set);
    }
    let place = byte as usize;
    if byte > 0 && has(mask, byte - 1) && numbers[place] == numbers[place - 1] {
        return Ok(set);
    }
    sets.unite(set, numbers[place])
}

/// The set with the members of all bytes' sets besides that a mask has.
fn with_bytes(sets: &mut SpanSets, start: u32, mask: u8, numbers: &[u32]) -> Result<u32, NoMemory>
    requires start { IsSet sets.old start }
    requires numbers { AreNumbers sets.old numbers.now }
    ensures takes { IfOk result (TakesBytes sets.old sets.new numbers.now mask byte_count start) }
    ensures before { StandAsBefore sets.old sets.new }
{
    if mask == 0 {
        return Ok(start);
    }
    let mut set = start;
    for byte in 0..8 {
        set = with_byte(sets, set, mask, byte, numbers)?;
    }
    Ok(set)
}

/// The bytes of rs1 that are taken as those of an address.
fn address_bytes(masks: Operands) -> u8
    ensures { result ≡ (if masks.address then 255 else 0) }
{
    if masks.address { ALL } else { 0 }
}

/// The set of the bytes that masks name, of two registers and of what is loaded.
pub fn gather(
    sets: &mut SpanSets,
    masks: Operands,
    first: &[u32],
    second: &[u32],
    loaded: &[u32],
) -> Result<u32, NoMemory>
    requires first { AreNumbers sets.old first.now }
    requires second { AreNumbers sets.old second.now }
    requires loaded { AreNumbers sets.old loaded.now }
    ensures gathers { IfOk result (Gathers sets.old sets.new first.now second.now loaded.now masks) }
    ensures before { StandAsBefore sets.old sets.new }
{
    let none = 0;
    let _ = sets.empty();
    let set = with_bytes(sets, none, masks.first, first)?;
    let set = with_bytes(sets, set, masks.second, second)?;
    let set = with_bytes(sets, set, masks.loaded, loaded)?;
    with_bytes(sets, set, address_bytes(masks), first)
}
