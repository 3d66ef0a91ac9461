// What is asked of a join.
use set_store::Item;

/// Which byte of an event.
#[derive(Clone, Copy)]
pub enum Place {
    /// A byte of the event, counted from 0.
    Byte(u64),
    /// A byte with which a child began that a fork made in a group of its own. Byte i of register r is
    /// 8(r - 1) + i, that of its save slot 248 more, and a byte of its private window is its address.
    Start(u64),
}

/// What byte `byte` of the target takes.
#[derive(Clone, Copy)]
pub enum Demand {
    /// A byte of an event, as the event shows it.
    Event { event: u64, place: Place, byte: u32 },
    /// An item: a byte that a group received, or one with which it began.
    Item { item: Item, byte: u32 },
}
