/// How many bytes stand before an image's body.
pub const HEADER_LEN: usize = 24;

/// What an image's header says.
#[derive(Clone, Copy, Debug, PartialEq, Eq)]
pub struct Image {
    /// The address of the first instruction.
    pub entry: u64,
    /// The address of the body's first byte.
    pub load: u64,
}

/// The bytes are no image.
#[derive(Clone, Copy, Debug, PartialEq, Eq)]
pub struct NotImage;
