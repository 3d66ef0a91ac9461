// The items of a byte.
ghost use Rattle.std.specs.Prelude.{◌≡◌, IfOk};
ghost use Rattle.taint_tracker.specs.Items.{listed};

use arn_base::NoMemory;
use set_store::Item;
use std::alloc::Global;
use taint_spans::SpanSets;

/// The items of a byte of an event, as they are kept.
#[derive(Clone, Copy)]
pub enum KeptItems<'a> {
    /// None, which needs no sets.
    Nothing,
    /// Those of one of these sets.
    Set { sets: &'a SpanSets, set: u32 },
}

impl<'a> KeptItems<'a> {
    /// The items as a list. A set is walked for it: none is kept as a list.
    pub fn to_vec(&self, alloc: Global) -> Result<Vec<Item>, NoMemory>
        ensures { IfOk result (λ items. items.items ≡ listed self.now) }
    {
        match self {
            KeptItems::Nothing => Ok(Vec::new(alloc)),
            KeptItems::Set { sets, set } => sets.members(*set),
        }
    }
}
