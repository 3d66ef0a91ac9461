// Faults, and which of them is told.
ghost use Rattle.std.specs.Prelude.{◌≡◌};
ghost use Rattle.guest_asm.specs.Assembled as assembled;
ghost use Rattle.guest_asm.specs.First.{either, first_of};

use asm_text::AsmKind;

fn rank(kind: AsmKind) -> u8
    ensures { result ≡ assembled.rank kind }
{
    match kind {
        AsmKind::Word => 0,
        AsmKind::Operand => 1,
        AsmKind::Range => 2,
        AsmKind::Label => 3,
        AsmKind::Align => 4,
        AsmKind::Size => 5,
    }
}

pub(crate) fn first_kind(a: AsmKind, b: AsmKind) -> AsmKind
    ensures { result ≡ assembled.first_kind a b }
{
    if rank(a) <= rank(b) { a } else { b }
}

// The first of the kinds that there are.
pub(crate) fn either(a: Option<AsmKind>, b: Option<AsmKind>) -> Option<AsmKind>
    ensures { result ≡ either a b }
{
    match (a, b) {
        (Some(a), Some(b)) => Some(first_kind(a, b)),
        (Some(a), None) => Some(a),
        (None, b) => b,
    }
}

// A fault, where the test holds.
pub(crate) fn fault_if(test: bool, kind: AsmKind) -> Option<AsmKind>
    ensures { result ≡ first_of (assembled.fault_if test kind) }
{
    test.then_some(kind)
}
