// The image of statements at their places.
ghost use Rattle.std.specs.Prelude.{◌≡◌, ◌<◌, ◌^◌, ◌++◌, List, OnOk, IfOk, unwrap_or};
ghost use Rattle.guest_asm.specs.Assembled as assembled;
ghost use Rattle.guest_asm.specs.Kept.{HasPlaces, KeepsPlaced, Stands};
ghost use Rattle.asm_text.specs.Names.{Named};
ghost use Rattle.asm_text.specs.Seen.{Keeps};
ghost use Rattle.guest_asm.specs.Sound.{IsSound, IsSoundAt};
ghost use Rattle.asm_text.specs.Statements as says;

use crate::checking::{address, target};
use crate::encoding::{push_number, push_statement};
use crate::labels::Labels;
use crate::places::{Layout, Placed};
use arn_base::{Bytes, NoMemory};
use asm_text::{Statement, StatementReading};
use parts_model::limits::WINDOW_START;
use std::alloc::Global;

/// The first bytes of an image.
const NAME: &[u8] = b"ARNIMG01";

// Where the label stands that a statement names.
fn label_address(labels: &Labels<'_>, statement: &Statement<'_>) -> u64
    ensures address { (named : List Named) (s : says.Statement) →
        HasPlaces labels.now named → Keeps statement.now s →
        result ≡ unwrap_or (assembled.target named s) 0 }
    ensures below { result < 2 ^ 32 }
{
    match target(labels, statement) {
        Some(to) => u64::from(to),
        None => 0,
    }
}

// Adds the bytes of a statement at its place.
fn push_placed(bytes: &mut Bytes, labels: &Labels<'_>, placed: &Placed<'_>) -> Result<(), NoMemory>
    requires { (named : List Named) × (p : assembled.Placed) ×
        HasPlaces labels.now named × KeepsPlaced placed.now p × IsSoundAt named p }
    ensures { OnOk result ((named : List Named) (p : assembled.Placed) →
        HasPlaces labels.now named → KeepsPlaced placed.now p → IsSoundAt named p →
        bytes.new ≡ bytes.old ++ assembled.statement_bytes named p) }
{
    match &placed.item.reading {
        StatementReading::Says(statement) => {
            let to = label_address(labels, statement);
            push_statement(bytes, statement, address(placed.offset), to)?;
        }
        StatementReading::Wrong(_) => {}
    }
    Ok(())
}

// Adds the bytes of the statements at their places.
fn push_body(bytes: &mut Bytes, layout: &Layout<'_>) -> Result<(), NoMemory>
    requires { (all : List assembled.Placed) × Stands layout.now all × IsSound all }
    ensures { OnOk result ((all : List assembled.Placed) → Stands layout.now all → IsSound all →
        bytes.new ≡ bytes.old ++ assembled.body all) }
{
    for placed in layout.placed.iter() {
        push_placed(bytes, &layout.labels, placed)?;
    }
    Ok(())
}

/// The image of statements without faults.
pub(crate) fn image(alloc: Global, layout: &Layout<'_>) -> Result<Bytes, NoMemory>
    requires { (all : List assembled.Placed) × Stands layout.now all × IsSound all }
    ensures { IfOk result (λ image. (all : List assembled.Placed) →
        Stands layout.now all → IsSound all → image ≡ assembled.image (assembled.body all)) }
{
    let mut bytes = Bytes::from_slice(alloc, NAME)?;
    push_number(&mut bytes, WINDOW_START, 8)?;
    push_number(&mut bytes, WINDOW_START, 8)?;
    push_body(&mut bytes, layout)?;
    Ok(bytes)
}
