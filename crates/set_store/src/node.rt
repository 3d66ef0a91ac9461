// The nodes of a trie.
ghost use Rattle.std.specs.Prelude.{◌≡◌, ◌↔◌, ◌⊎◌, ◌<◌, ◌≤◌, ◌+◌, ◌-◌, ◌/◌, ◌%◌, ◌^◌, [], ◌∷◌, ◌++◌, Contains, IfOk, IsTrue};
ghost use Rattle.set_store.specs.declared.item.Item.{Item};
ghost use Rattle.set_store.specs.Sets.{IsNear, IsUnionOf};
ghost use Rattle.set_store.specs.Tries.{IsRow, byte_of, items_of, place};

use crate::item::Item;
use arn_base::NoMemory;

/// Where the members of a set part: those whose key has the bit are in the right part.
#[derive(Clone, Copy, PartialEq, Eq, Hash)]
pub struct Fork {
    /// The event of the lowest member.
    pub event: u64,
    /// Its row.
    pub row: u64,
    /// The highest bit in which the keys of two members differ.
    pub bit: u32,
    /// The set of the members without the bit.
    pub left: u32,
    /// The set of those with it.
    pub right: u32,
}

/// Members with one key: bytes of one event, of one row of 64.
#[derive(Clone, Copy, PartialEq, Eq, Hash)]
pub struct Row {
    /// The event's number.
    pub event: u64,
    /// Which row of 64 bytes.
    pub row: u64,
    /// The bytes, as bits.
    pub mask: u64,
}

/// A set, as it is made of others.
#[derive(Clone, Copy, PartialEq, Eq, Hash)]
pub enum Node {
    /// No item.
    Empty,
    /// Items with one key.
    Leaf(Row),
    /// Two sets that aren't empty.
    Branch(Fork),
}

/// How many rows an event may have.
const ROWS: u128 = 288_230_376_151_711_744;

/// How many bytes a row has.
pub const ROW_LEN: u64 = 64;

/// The rows of bytes in their order, as numbers.
pub fn key(event: u64, row: u64) -> u128
    ensures { result ≡ place event row }
{
    event as u128 * ROWS + row as u128
}

/// The bits of a key from one on.
pub fn side(key: u128, bit: u32) -> u128
    requires { bit < 128 }
    ensures side { result ≡ key / 2 ^ bit }
    ensures below { result < 2 ^ (128 - bit) }
{
    key >> bit
}

/// The highest bit in which two keys differ, or the one that it is to be at least.
pub fn apart_from(x: u128, y: u128, least: u32) -> u32
    requires { least < 128 }
    ensures below { result < 128 }
    ensures least { least ≤ result }
    ensures alike { x / 2 ^ result / 2 ≡ y / 2 ^ result / 2 }
    ensures apart { (result ≡ least) ⊎ (x / 2 ^ result ≡ y / 2 ^ result → ⊥) }
{
    let apart = x ^ y;
    if apart == 0 {
        return least;
    }
    least.max(127 - apart.leading_zeros())
}

/// Whether an item is in a row.
pub fn has(row: Row, item: Item) -> bool
    requires { IsRow row }
    ensures { IsTrue result ↔ Contains (items_of row) item }
{
    if row.event != item.event || row.row != item.at / ROW_LEN {
        return false;
    }
    row.mask >> (item.at % ROW_LEN) & 1 == 1
}

/// The row of one item.
pub fn row_of(item: Item) -> Row
    ensures row { IsRow result }
    ensures event { result.event ≡ item.event }
    ensures place { result.row ≡ item.at / 64 }
    ensures members { items_of result ≡ item ∷ [] }
{
    Row {
        event: item.event,
        row: item.at / ROW_LEN,
        mask: 1 << (item.at % ROW_LEN),
    }
}

/// A row with one more of its items.
fn with(row: Row, item: Item) -> Row
    requires row { IsRow row }
    requires event { row.event ≡ item.event }
    requires place { row.row ≡ item.at / 64 }
    ensures row { IsRow result }
    ensures event { result.event ≡ row.event }
    ensures place { result.row ≡ row.row }
    ensures members { IsUnionOf (items_of result) (items_of row) (item ∷ []) }
{
    Row {
        mask: row.mask | 1 << (item.at % ROW_LEN),
        ..row
    }
}

/// The row of so many bytes of an event that follow each other, where they lie in one.
pub fn neighbours(first: Item, len: u64) -> Row
    requires some { 0 < len }
    requires inside { first.at % 64 + len ≤ 64 }
    ensures row { IsRow result }
    ensures event { result.event ≡ first.event }
    ensures place { result.row ≡ first.at / 64 }
    ensures members { (item : Item) → Contains (items_of result) item ↔ IsNear first len item }
{
    if len == 1 {
        return row_of(first);
    }
    let last = Item {
        event: first.event,
        at: first.at + (len - 1),
    };
    with(neighbours(first, len - 1), last)
}

// Pushes the item of one byte, where the row has it.
fn push_byte(row: Row, byte: u64, items: &mut Vec<Item>) -> Result<(), NoMemory>
    requires row { IsRow row }
    requires byte { byte < 64 }
    ensures { IfOk result (λ _. items.new.items ≡ items.old.items ++ byte_of row byte) }
{
    if row.mask >> byte & 1 == 1 {
        items.push(Item {
            event: row.event,
            at: row.row * ROW_LEN + byte,
        })?;
    }
    Ok(())
}

/// Pushes the items of a row, one byte after the other.
fn push_bytes(row: Row, items: &mut Vec<Item>) -> Result<(), NoMemory>
    requires { IsRow row }
    ensures { IfOk result (λ _. items.new.items ≡ items.old.items ++ items_of row) }
{
    for byte in 0..ROW_LEN {
        push_byte(row, byte, items)?;
    }
    Ok(())
}

/// Pushes the items of a row. Most rows have one, and are asked for no other.
pub fn push_row(row: Row, items: &mut Vec<Item>) -> Result<(), NoMemory>
    requires { IsRow row }
    ensures { IfOk result (λ _. items.new.items ≡ items.old.items ++ items_of row) }
{
    let byte = u64::from(row.mask.trailing_zeros());
    if byte < ROW_LEN && row.mask == 1 << byte {
        items.push(Item {
            event: row.event,
            at: row.row * ROW_LEN + byte,
        })?;
        return Ok(());
    }
    push_bytes(row, items)
}
