use arn_base::Src;

/// A byte, and the event byte that last wrote it.
#[derive(Clone, Copy)]
pub struct TaggedByte {
    pub value: u8,
    pub origin: Src,
}
