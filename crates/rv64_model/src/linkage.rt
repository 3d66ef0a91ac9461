/// Which instructions carry a dependence.
#[derive(Clone, Copy)]
pub enum Linkage {
    /// Bytes that are moved whole: by a move, a load or a store.
    Copy,
    /// Also bytes that are worked out from others.
    Data,
    /// Also bytes that are looked up at an address, which depend on the address.
    Index,
}
