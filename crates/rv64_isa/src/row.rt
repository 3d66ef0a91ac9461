ghost use Rattle.std.specs.Prelude.{◌≡◌};

// A row of the table: what its mnemonic fixes of a word.
#[derive(Clone, Copy)]
pub(crate) struct Row {
    pub(crate) form: Form,
    pub(crate) opcode: u32,
    pub(crate) funct3: u32,
    pub(crate) upper: u32,
}

// How a row's words are laid out, by the manual's names. The last two are I forms whose
// immediate is a shift amount, of 6 bits and of 5: the bits above it belong to the row.
#[derive(Clone, Copy)]
pub(crate) enum Form {
    R,
    I,
    S,
    B,
    Shift,
    WordShift,
}

impl Row {
    ghost use Rattle.rv64_isa.specs.Rows.{row};

    #[inline(always)]
    pub(crate) fn new(form: Form, opcode: u32, funct3: u32, upper: u32) -> Row
        ensures { result ≡ row form opcode funct3 upper }
    {
        Row {
            form,
            opcode,
            funct3,
            upper,
        }
    }
}
