// Labels, and where they stand.
ghost use Rattle.std.specs.Prelude.{◌≡◌, ℕ, ◌++◌, ◌∷◌, [], List, OnOk, IfOk, option_map};
ghost use Rattle.std.specs.List.{AllZip};
ghost use Rattle.guest_asm.specs.Assembled as assembled;
ghost use Rattle.guest_asm.specs.Kept.{KeepsItem, Knows};
ghost use Rattle.asm_text.specs.Seen.{KeepsReading};
ghost use Rattle.asm_text.specs.Statements as says;

use crate::items::Item;
use arn_base::NoMemory;
use asm_text::{Statement, StatementReading};
use std::alloc::Global;
use std::collections::BTreeMap;

/// Labels, and the address of the first definition of each.
#[derive(Drop)]
pub(crate) struct Labels<'a> {
    places: BTreeMap<&'a [u8], u32>,
}

impl<'a> Labels<'a> {
    ghost use Rattle.asm_text.specs.Names.{Named};
    ghost use Rattle.guest_asm.specs.Kept.{address_in, defined_at, HasPlaces};

    pub(crate) fn new(alloc: Global) -> Labels<'a>
        ensures { HasPlaces result [] }
    {
        Labels {
            places: BTreeMap::new(alloc),
        }
    }

    // The address of a label, if it is defined.
    pub(crate) fn get(&self, name: &[u8]) -> Option<u32>
        ensures { result ≡ address_in self.now name.now }
    {
        self.places.get(name).copied()
    }

    // Adds a definition of a label.
    pub(crate) fn add(&mut self, name: &'a [u8], address: u32) -> Result<(), NoMemory>
        ensures { OnOk result ((named : List Named) → HasPlaces self.old named →
            HasPlaces self.new (named ++ record { name = name.now; number = address } ∷ [])) }
    {
        if self.get(name).is_none() {
            self.places.insert(name, address)?;
        }
        Ok(())
    }

    // Adds the definition that a statement at an address is, if it is one.
    pub(crate) fn define(
        &mut self,
        reading: &StatementReading<'a>,
        address: u32,
    ) -> Result<(), NoMemory>
        ensures { OnOk result ((named : List Named) (r : says.StatementReading) →
            HasPlaces self.old named → KeepsReading reading.now r →
            HasPlaces self.new (named ++ defined_at address r)) }
    {
        match defined_label(reading) {
            Some(name) => self.add(name, address)?,
            None => {}
        }
        Ok(())
    }
}

// The label that a statement defines, if it does.
pub(crate) fn defined_label<'a>(reading: &StatementReading<'a>) -> Option<&'a [u8]>
    ensures { (r : says.StatementReading) → KeepsReading reading.now r →
        assembled.defined_label r ≡ option_map (λ name. name.now) result }
{
    match *reading {
        StatementReading::Says(Statement::Label { name }) => Some(name),
        _ => None,
    }
}

/// The labels that are defined among statements.
pub(crate) fn known_labels<'a>(alloc: Global, items: &[Item<'a>]) -> Result<Labels<'a>, NoMemory>
    ensures { IfOk result (λ known. (is : List assembled.Item) →
        AllZip KeepsItem items.now is → Knows known (assembled.labels is)) }
{
    let mut known = Labels::new(alloc);
    for item in items {
        known.define(&item.reading, 0)?;
    }
    Ok(known)
}
