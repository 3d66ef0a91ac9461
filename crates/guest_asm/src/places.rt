// Statements at their offsets.
ghost use Rattle.std.specs.Prelude.{◌≡◌, ◌≤◌, ◌+◌, ◌++◌, ◌∷◌, [], List, ℕ, Some, OnOk, IfOk};
ghost use Rattle.std.specs.Prelude.{not, nat_lt, ◌%◌, ◌==◌, ◌&&◌, option_to_list};
ghost use Rattle.std.specs.List.{flat_map, AllZip};
ghost use Rattle.guest_asm.specs.Assembled as assembled;
ghost use Rattle.guest_asm.specs.First.{first_of, Takes};
ghost use Rattle.guest_asm.specs.Kept.{names_of, placed_at, HasPlaces, KeepsItem, Knows, Stands};
ghost use Rattle.guest_asm.specs.Meanings as meanings;
ghost use Rattle.asm_text.specs.Seen.{Keeps, KeepsReading};
ghost use Rattle.asm_text.specs.Statements as says;
ghost use Rattle.asm_text.specs.declared.fault.AsmKind.{AsmKind};
ghost use Rattle.asm_text.specs.declared.fault.AsmKind.TheVariants as kind;

use crate::faults::{either, fault_if};
use crate::fields::MOST_BYTES;
use crate::items::Item;
use crate::labels::{Labels, defined_label};
use crate::meanings::{is_code, named_label, size};
use arn_base::NoMemory;
use asm_text::{AsmKind, Statement, StatementReading};
use parts_model::limits::WINDOW_START;
use std::alloc::Global;

/// The address of the first statement.
pub(crate) const START: u32 = WINDOW_START as u32;

/// A statement at its offset, and the first of the faults by which it takes no place.
#[derive(Clone, Copy)]
pub(crate) struct Placed<'a> {
    pub(crate) item: &'a Item<'a>,
    pub(crate) offset: u32,
    pub(crate) fault: Option<AsmKind>,
}

/// Statements at their offsets, and the labels that are defined among them.
#[derive(Drop)]
pub(crate) struct Layout<'a> {
    pub(crate) placed: Vec<Placed<'a>>,
    pub(crate) labels: Labels<'a>,
    /// Where the next statement stands.
    pub(crate) offset: u32,
}

// A label that is named isn't defined.
fn unknown_fault(known: &Labels<'_>, statement: &Statement<'_>) -> Option<AsmKind>
    ensures { (names : List (List ℕ)) (s : says.Statement) →
        Knows known.now names → Keeps statement.now s →
        result ≡ first_of (flat_map
        (λ name. assembled.fault_if (not (assembled.is_among names name)) kind.Label)
        (option_to_list (meanings.named_label s))) }
{
    match named_label(statement) {
        Some(name) => fault_if(known.get(name).is_none(), AsmKind::Label),
        None => None,
    }
}

// A label that is defined was so before.
fn again_fault(earlier: &Labels<'_>, reading: &StatementReading<'_>) -> Option<AsmKind>
    ensures { (names : List (List ℕ)) (r : says.StatementReading) →
        Knows earlier.now names → KeepsReading reading.now r →
        result ≡ first_of (flat_map
        (λ name. assembled.fault_if (assembled.is_among names name) kind.Label)
        (option_to_list (assembled.defined_label r))) }
{
    match defined_label(reading) {
        Some(name) => fault_if(earlier.get(name).is_some(), AsmKind::Label),
        None => None,
    }
}

// A statement is made of instructions, and stands at an offset that is no multiple of 4.
fn align_fault(offset: u32, statement: &Statement<'_>) -> Option<AsmKind>
    ensures { (s : says.Statement) → Keeps statement.now s →
        result ≡ first_of (assembled.fault_if
        (meanings.is_code s && not (offset % 4 == 0)) kind.Align) }
{
    fault_if(
        is_code(statement) && !offset.is_multiple_of(4),
        AsmKind::Align,
    )
}

// How many bytes a statement takes at an offset, or the first of its faults.
fn taken_by(label: Option<AsmKind>, offset: u32, statement: &Statement<'_>) -> Result<u32, AsmKind>
    requires { offset ≤ meanings.most_bytes }
    ensures room { IfOk result (λ n. offset + n ≤ meanings.most_bytes) }
    ensures taken { (s : says.Statement) (faults : List AsmKind) →
        Keeps statement.now s → label ≡ first_of faults →
        Takes result (says.Says s) (faults
        ++ assembled.fault_if (meanings.is_code s && not (offset % 4 == 0)) kind.Align
        ++ assembled.fault_if
        (nat_lt meanings.most_bytes (offset + meanings.size s)) kind.Size) }
{
    let size = size(statement);
    let end = u64::from(offset) + size;
    let fault = either(label, align_fault(offset, statement));
    match either(fault, fault_if(MOST_BYTES < end, AsmKind::Size)) {
        Some(kind) => Err(kind),
        None => Ok(size as u32),
    }
}

// The same, among the labels.
fn taken(
    known: &Labels<'_>,
    earlier: &Labels<'_>,
    offset: u32,
    reading: &StatementReading<'_>,
) -> Result<u32, AsmKind>
    requires { offset ≤ meanings.most_bytes }
    ensures room { IfOk result (λ n. offset + n ≤ meanings.most_bytes) }
    ensures taken { (names before : List (List ℕ)) (r : says.StatementReading) →
        Knows known.now names → Knows earlier.now before → KeepsReading reading.now r →
        Takes result r (assembled.place_faults names before offset r) }
{
    match reading {
        StatementReading::Says(statement) => {
            let label = either(
                unknown_fault(known, statement),
                again_fault(earlier, reading),
            );
            taken_by(label, offset, statement)
        }
        StatementReading::Wrong(kind) => Err(*kind),
    }
}

impl<'a> Layout<'a> {
    // Gives a statement its place.
    fn place(&mut self, known: &Labels<'_>, item: &'a Item<'a>) -> Result<(), NoMemory>
        requires { self.old.offset ≤ meanings.most_bytes }
        ensures room { OnOk result (self.new.offset ≤ meanings.most_bytes) }
        ensures placed { OnOk result ((names : List (List ℕ)) (done : List assembled.Placed)
            (i : assembled.Item) →
            Knows known.now names → Stands self.old done → KeepsItem item.now i →
            Stands self.new (done ++ placed_at names (names_of (assembled.places done))
            self.old.offset i ∷ [])) }
        ensures offset { OnOk result ((names : List (List ℕ)) (done : List assembled.Placed)
            (i : assembled.Item) →
            Knows known.now names → Stands self.old done → KeepsItem item.now i →
            self.new.offset ≡ self.old.offset + assembled.taken
            (placed_at names (names_of (assembled.places done)) self.old.offset i).faults
            i.reading) }
    {
        let offset = self.offset;
        let taken = taken(known, &self.labels, offset, &item.reading);
        let fault = taken.err();
        self.placed.push(Placed {
            item,
            offset,
            fault,
        })?;
        self.labels.define(&item.reading, START + offset)?;
        self.offset += taken.unwrap_or(0);
        Ok(())
    }
}

/// The statements at their places, one behind the other.
pub(crate) fn place<'a>(
    alloc: Global,
    items: &'a [Item<'a>],
    known: &Labels<'_>,
) -> Result<Layout<'a>, NoMemory>
    ensures { IfOk result (λ layout. (is : List assembled.Item) →
        AllZip KeepsItem items.now is → Knows known.now (assembled.labels is) →
        Stands layout (assembled.placed_from (assembled.labels is) [] 0 is)) }
{
    let mut layout = Layout {
        placed: Vec::new(alloc),
        labels: Labels::new(alloc),
        offset: 0,
    };
    for item in items {
        layout.place(known, item)?;
    }
    Ok(layout)
}
