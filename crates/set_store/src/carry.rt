// Sets that are carried over into other sets.
ghost use Rattle.std.specs.Prelude.{◌≡◌, ◌<◌, slice_get, IfOk, IfSome, Some};
ghost use Rattle.set_store.specs.Carried.{AreCarried, IsCarried, Notes};
ghost use Rattle.set_store.specs.Sets.{AreInterned, IsSet, StandAsBefore, members_of};
ghost use Rattle.set_store.specs.Tries.{IsNodeOf};

use crate::node::Node;
use crate::sets::{Sets, narrow};
use arn_base::NoMemory;

/// The number that a set has got, if it was carried over already. 0 says that it wasn't.
fn noted(numbers: &[u32], set: usize) -> Option<usize>
    ensures { IfSome result (λ number. (0 < number) × (slice_get numbers.now set ≡ Some number)) }
{
    match numbers.get(set) {
        Some(number) if *number > 0 => Some(*number as usize),
        _ => None,
    }
}

/// Notes the number that a set has got, where there is a place for it.
fn note(numbers: &mut [u32], set: usize, number: usize) -> Result<(), NoMemory>
    ensures noted { Notes set number numbers.old numbers.new }
{
    let number = narrow(number)?;
    if set < numbers.len() {
        numbers[set] = number;
    }
    Ok(())
}

impl Sets {
    /// Carries a set of others over: gives the number of a set of the same members, empty where the others have no such
    /// set. Parts that were carried over before have the numbers that are noted by their own, and so has this one.
    #[cycle(carry)]
    pub fn carry(&mut self, from: &Sets, numbers: &mut [u32], set: usize) -> Result<usize, NoMemory>
        requires { AreCarried from.now self.old numbers.old }
        ensures set { IfOk result (IsSet self.new) }
        ensures members { IfOk result (λ number. members_of self.new number ≡ members_of from.now set) }
        ensures before { StandAsBefore self.old self.new }
        ensures interned { AreInterned self.new }
        ensures noted { AreCarried from.now self.new numbers.new }
    {
        let empty = self.empty();
        if set >= from.len() {
            return Ok(empty);
        }
        if let Some(number) = noted(numbers, set) {
            return Ok(number);
        }
        let number = self.carry_node(from, numbers, set, from.node(set))?;
        note(numbers, set, number)?;
        Ok(number)
    }

    /// The same of a set with this node.
    #[cycle(carry)]
    fn carry_node(
        &mut self,
        from: &Sets,
        numbers: &mut [u32],
        set: usize,
        node: Node,
    ) -> Result<usize, NoMemory>
        requires carried { AreCarried from.now self.old numbers.old }
        requires node { IsNodeOf from.now set node }
        ensures set { IfOk result (IsSet self.new) }
        ensures members { IfOk result (λ number. members_of self.new number ≡ members_of from.now set) }
        ensures before { StandAsBefore self.old self.new }
        ensures interned { AreInterned self.new }
        ensures noted { AreCarried from.now self.new numbers.new }
    {
        match node {
            Node::Empty => Ok(self.empty()),
            Node::Leaf(_) => self.kept(node),
            Node::Branch(fork) => {
                let left = self.carry(from, numbers, fork.left as usize)?;
                let right = self.carry(from, numbers, fork.right as usize)?;
                self.forked(fork.bit, left, right)
            }
        }
    }
}
