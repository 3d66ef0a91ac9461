// Pipes under keys that are used again, each with its number.
ghost use Rattle.std.specs.Prelude.{◌≡◌, IfSome, IfNone, IsSome, None};
ghost use Rattle.slab.specs.Slab.{get};
ghost use Rattle.guest_pipes.specs.Table.{HasNumber, numbered};

use crate::pipe::Pipe;
use slab::Slab;

/// A pipe, and its number.
#[derive(Drop)]
pub struct Entry {
    pub number: u32,
    pub pipe: Pipe,
}

/// The key of the pipe of a number, if it is there.
pub fn find_key(table: &Slab<Entry>, number: u32) -> Option<usize>
    ensures found { IfSome result (λ key. HasNumber number (get table.now key)) }
    ensures absent { IfNone result (numbered table.now.slots number ≡ None) }
{
    for (key, entry) in table.iter() {
        if entry.number == number {
            return Some(key);
        }
    }
    None
}

/// The key of the pipe of a number that is there.
pub fn key_of(table: &Slab<Entry>, number: u32) -> usize
    requires { IsSome (numbered table.now.slots number) }
    ensures { HasNumber number (get table.now result) }
{
    match find_key(table, number) {
        Some(key) => key,
        None => unreachable!(),
    }
}
