// Plain numbers of what spans have.
ghost use Rattle.std.specs.Prelude.{◌≡◌, ◌≤◌, ◌<◌, ◌+◌, ◌^◌, ◌++◌, ℕ, IfOk};
ghost use Rattle.set_store.specs.Sets.{HaveSame};
ghost use Rattle.taint_sets.specs.Numbered.{IsSet, StandAsBefore, members_of};
ghost use Rattle.taint_spans.specs.Spans.{IsSpan, members_from, span_members};

use crate::span::Span;
use arn_base::NoMemory;
use set_store::Item;
use taint_sets::ByteSets;

/// The set of all members of so many sets whose numbers follow each other, row by row.
fn join(sets: &mut ByteSets, first: u32, len: u32) -> Result<u32, NoMemory>
    requires there { (k : ℕ) → k < len → IsSet sets.old (first + k) }
    requires fits { first + len ≤ 2 ^ 32 }
    ensures set { IfOk result (IsSet sets.new) }
    ensures members { IfOk result (λ set.
        HaveSame (members_of sets.new set) (members_from sets.old first len)) }
    ensures before { StandAsBefore sets.old sets.new }
{
    if len == 0 {
        return Ok(sets.empty());
    }
    let (row, count) = sets.row(first, len)?;
    if count == len {
        return Ok(row);
    }
    let others = join(sets, first + count, len - count)?;
    sets.unite(row, others)
}

/// The set of all members that a span has.
pub fn settle(sets: &mut ByteSets, span: Span) -> Result<u32, NoMemory>
    requires { IsSpan sets.old span }
    ensures set { IfOk result (IsSet sets.new) }
    ensures members { IfOk result (λ set.
        HaveSame (members_of sets.new set) (span_members sets.old span)) }
    ensures before { StandAsBefore sets.old sets.new }
{
    let bytes = join(sets, span.first, span.len)?;
    sets.unite(span.base, bytes)
}

/// Pushes the members of so many sets whose numbers follow each other.
fn push_members(
    sets: &ByteSets,
    first: u32,
    len: u32,
    items: &mut Vec<Item>,
) -> Result<(), NoMemory>
    requires { first + len ≤ 2 ^ 32 }
    ensures { IfOk result (λ _. items.new.items ≡ items.old.items ++ members_from sets.now first len) }
{
    if len == 0 {
        return Ok(());
    }
    push_members(sets, first, len - 1, items)?;
    let last = sets.members(first + (len - 1))?;
    items.extend_from_slice(last.as_slice())?;
    Ok(())
}

/// The members that a span has.
pub fn members(sets: &ByteSets, span: Span) -> Result<Vec<Item>, NoMemory>
    requires { IsSpan sets.now span }
    ensures { IfOk result (λ items. items.items ≡ span_members sets.now span) }
{
    let mut items = sets.members(span.base)?;
    push_members(sets, span.first, span.len, &mut items)?;
    Ok(items)
}
