// The first fault of the statements at their places.
ghost use Rattle.std.specs.Prelude.{◌≡◌, ◌+◌, ◌++◌, List, map, not};
ghost use Rattle.guest_asm.specs.Assembled as assembled;
ghost use Rattle.guest_asm.specs.Checked.{told, added};
ghost use Rattle.guest_asm.specs.First.{first_of};
ghost use Rattle.guest_asm.specs.Kept.{HasPlaces, KeepsPlaced, Stands};
ghost use Rattle.asm_text.specs.Names.{Named};
ghost use Rattle.asm_text.specs.Seen.{Keeps};
ghost use Rattle.asm_text.specs.Statements as says;
ghost use Rattle.asm_text.specs.declared.fault.AsmKind.{AsmKind};
ghost use Rattle.asm_text.specs.declared.fault.AsmKind.TheVariants as kind;

use crate::faults::{either, fault_if, first_kind};
use crate::labels::Labels;
use crate::meanings::{has_fields, named_label, reaches};
use crate::places::{Layout, Placed};
use asm_text::{AsmKind, Statement, StatementReading};
use parts_model::limits::WINDOW_START;

/// A fault of a line.
#[derive(Clone, Copy)]
pub(crate) struct Fault {
    pub(crate) line: u64,
    pub(crate) kind: AsmKind,
}

// The address of the label that a statement names, if it names one that has an address.
pub(crate) fn target(labels: &Labels<'_>, statement: &Statement<'_>) -> Option<u32>
    ensures { (named : List Named) (s : says.Statement) →
        HasPlaces labels.now named → Keeps statement.now s → result ≡ assembled.target named s }
{
    match named_label(statement) {
        Some(name) => labels.get(name),
        None => None,
    }
}

// The address of a statement.
pub(crate) fn address(offset: u32) -> u64
    ensures { result ≡ WINDOW_START + offset }
{
    WINDOW_START + u64::from(offset)
}

// The distance to the label, where there is one, fits.
fn reaches_label(labels: &Labels<'_>, offset: u32, statement: &Statement<'_>) -> bool
    ensures { (named : List Named) (s : says.Statement) →
        HasPlaces labels.now named → Keeps statement.now s →
        result ≡ assembled.reaches_if s (WINDOW_START + offset) (assembled.target named s) }
{
    match target(labels, statement) {
        Some(to) => reaches(statement, address(offset), u64::from(to)),
        None => true,
    }
}

// A number of a statement, or its distance, is out of its field.
fn range_fault(labels: &Labels<'_>, offset: u32, statement: &Statement<'_>) -> Option<AsmKind>
    ensures { (named : List Named) (s : says.Statement) →
        HasPlaces labels.now named → Keeps statement.now s →
        result ≡ first_of (assembled.fault_if
        (not (assembled.is_in_range named (WINDOW_START + offset) s)) kind.Range) }
{
    let in_range = has_fields(statement) && reaches_label(labels, offset, statement);
    fault_if(!in_range, AsmKind::Range)
}

// The first of all faults of a statement.
fn fault_at(labels: &Labels<'_>, placed: &Placed<'_>) -> Option<AsmKind>
    ensures { (named : List Named) (p : assembled.Placed) →
        HasPlaces labels.now named → KeepsPlaced placed.now p →
        result ≡ first_of (assembled.faults_of named p) }
{
    match &placed.item.reading {
        StatementReading::Says(statement) => either(
            range_fault(labels, placed.offset, statement),
            placed.fault,
        ),
        StatementReading::Wrong(_) => placed.fault,
    }
}

// The fault that is told, after those of one more statement.
fn add_fault(found: Option<Fault>, line: u64, kind: Option<AsmKind>) -> Option<Fault>
    ensures { told result ≡ added (told found) line kind }
{
    match (found, kind) {
        (None, Some(kind)) => Some(Fault { line, kind }),
        (Some(fault), Some(kind)) if line == fault.line => Some(Fault {
            line: fault.line,
            kind: first_kind(fault.kind, kind),
        }),
        _ => found,
    }
}

/// The first fault, if there is one.
pub(crate) fn first_fault(layout: &Layout<'_>) -> Option<Fault>
    ensures { (all : List assembled.Placed) → Stands layout.now all →
        told result ≡ assembled.first_fault (assembled.all_faults all) }
{
    let mut found = None;
    for placed in layout.placed.iter() {
        found = add_fault(found, placed.item.line, fault_at(&layout.labels, placed));
    }
    found
}
