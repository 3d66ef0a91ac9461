ghost use Rattle.std.specs.Prelude.{◌≡◌, ℕ, None, Some, Err, IfOk, OnOk, true};
ghost use Rattle.parts_model.specs.Image.{is_image};
ghost use Rattle.asm_text.specs.declared.fault.AsmKind.{AsmKind};
ghost use Rattle.guest_asm.specs.Assembled.{fault_of, image_of_text};

use crate::checking::first_fault;
use crate::fault::AsmError;
use crate::images::image;
use crate::items::items;
use crate::labels::known_labels;
use crate::places::place;
use arn_base::Bytes;
use std::alloc::Global;

/// The image of a program's text: statements of RV64I, one or more a line. Its body is loaded and
/// entered at the start of the private window.
///
/// Of a text with faults the first faulty line is told, and the first kind of fault on it. It takes
/// time in the length of the text, and the logarithm of the number of labels for each look-up.
pub fn assemble(alloc: Global, text: &[u8]) -> Result<Bytes, AsmError>
    ensures image { IfOk result (λ image. image ≡ image_of_text text.now) }
    ensures accepted { IfOk result (λ image. is_image image ≡ true) }
    ensures faultless { OnOk result (fault_of text.now ≡ None) }
    ensures fault { (line : ℕ) (kind : AsmKind) → result ≡ Err (AsmError.Fault line kind) →
        fault_of text.now ≡ Some (record { line = line; kind = kind }) }
{
    let items = items(alloc, text)?;
    let known = known_labels(alloc, items.as_slice())?;
    let layout = place(alloc, items.as_slice(), &known)?;
    match first_fault(&layout) {
        Some(fault) => Err(AsmError::Fault {
            line: fault.line,
            kind: fault.kind,
        }),
        None => Ok(image(alloc, &layout)?),
    }
}
