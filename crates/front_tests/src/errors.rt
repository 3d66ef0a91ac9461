// Why a program isn't assembled, and why no command is read.
use crate::same::assert_same;
use arn_commands::ReadError;
use asm_text::AsmKind;
use guest_asm::AsmError;
use std::alloc::AllocError;
use std::fmt::Display;
use std::process::Abort;

// Errors, and the texts that are wanted.
type Shown<E> = (E, &'static str);

const ASSEMBLING: &[Shown<AsmError>] = &[
    (
        AsmError::Fault {
            line: 2,
            kind: AsmKind::Label,
        },
        "line 2 is faulty",
    ),
    (AsmError::NoMemory, "out of memory"),
];

const READING: &[Shown<ReadError>] = &[
    (ReadError::Source, "the source failed"),
    (ReadError::Long, "the text is too long"),
    (ReadError::NoMemory, "out of memory"),
];

// Each error shows its text.
fn assert_shown<E: Display>(
    rt: &(impl Abort + AllocGlobal),
    cases: &[Shown<E>],
) -> Result<(), AllocError> {
    for (error, wanted) in cases {
        let text = error.to_string(rt.alloc())?;
        assert_same(rt, text.as_str(), *wanted);
    }
    Ok(())
}

fn assert_all_shown(rt: &(impl Abort + AllocGlobal)) -> Result<(), AllocError> {
    assert_shown(rt, ASSEMBLING)?;
    assert_shown(rt, READING)
}

#[test]
fn errors_show_why(rt: HostRuntime) -> Result<(), AllocError> {
    assert_all_shown(&rt)
}
