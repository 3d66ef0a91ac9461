// A live member.
ghost use Rattle.std.specs.Prelude.{◌≡◌, ◌*◌, Bool, None, Some, IfOk, OnOk};
ghost use Rattle.taint_pages.specs.declared.page.Unset.TheVariants.{Zero};
ghost use Rattle.taint_pages.specs.Pages.{AreUnset, page_len};
ghost use Rattle.taint_members.specs.Access.{HoldsKeys, window_numbers};
ghost use Rattle.taint_members.specs.Carried.{CarriesMember};
ghost use Rattle.taint_spans.specs.Carried.{CarriesOn};
ghost use Rattle.taint_members.specs.Rows.{AreZero, ClearsResult, IsSaved, window_pages};

use arn_base::NoMemory;
use rv64_isa::Reg;
use std::alloc::Global;
use std::mem;
use taint_pages::{Row, SetNumbers, Unset};
use taint_spans::Carrying;

/// How many pages a private window has.
pub const WINDOW_PAGES: usize = 64;

/// A memory that a member holds, its window or its segment: the event that made it, and its key in
/// the table. Several members may hold one.
#[derive(Clone, Copy)]
pub struct Held {
    pub made: u64,
    pub key: usize,
}

/// The numbers of the sets of a member's bytes: of its registers, and of what its slot keeps of
/// them; and the memories that it holds.
#[derive(Drop)]
pub struct MemberSets {
    pub registers: Row,
    pub slot: Row,
    pub window: Held,
    pub segment: Option<Held>,
}

/// A member that isn't in the table yet: its window has no key, and none but it has the window.
#[derive(Drop)]
pub struct NewMember {
    pub registers: Row,
    pub slot: Row,
    pub window: SetNumbers,
    pub segment: Option<Held>,
}

/// The result of a call takes nothing.
pub fn clear_result(registers: &mut Row)
    ensures { ClearsResult registers.old registers.new }
{
    if let Some(result) = Reg::new(10) {
        registers.put(result, &[0; 8]);
    }
}

/// A window none of whose bytes has a set.
fn empty_window(alloc: Global) -> Result<SetNumbers, NoMemory>
    ensures { IfOk result (AreUnset Zero (page_len * window_pages)) }
{
    SetNumbers::new(alloc, WINDOW_PAGES, Unset::Zero)
}

impl MemberSets {
    /// A call returns. Its result takes nothing.
    pub fn returns(&mut self)
        ensures result { ClearsResult self.old.registers self.new.registers }
        ensures others { self.new ≡ record self.old { registers = self.new.registers } }
    {
        clear_result(&mut self.registers);
    }

    /// A handler begins. The slot keeps the registers, of which x10 is the result of a call that was cut off; then
    /// x10 is the signal's number, which takes nothing.
    pub fn delivers(&mut self, cut: bool)
        ensures saved { IsSaved cut self.old.registers self.new.slot }
        ensures result { ClearsResult self.old.registers self.new.registers }
        ensures others { self.new ≡ record self.old {
          registers = self.new.registers;
          slot = self.new.slot;
        } }
    {
        self.slot.copy_from(&self.registers);
        if cut {
            clear_result(&mut self.slot);
        }
        clear_result(&mut self.registers);
    }

    /// A handler ends. The slot gives the registers back, and keeps nothing.
    pub fn leaves(&mut self)
        ensures slot { AreZero self.new.slot }
        ensures others { self.new ≡ record self.old {
          registers = self.old.slot;
          slot = self.new.slot;
        } }
    {
        mem::swap(&mut self.registers, &mut self.slot);
        self.slot.clear_all();
    }

    /// The child of a fork: its registers, but the result, its slot and its window have what its parent's have. The
    /// parent stays as it is. Both share the pages of their windows until they are written.
    pub fn child(&self, memories: &mut [SetNumbers]) -> Result<NewMember, NoMemory>
        requires held { HoldsKeys self.now memories.old }
        ensures result { IfOk result (λ child. ClearsResult self.now.registers child.registers) }
        ensures slot { IfOk result (λ child. child.slot ≡ self.now.slot) }
        ensures window { IfOk result (λ child. child.window ≡ window_numbers self.now memories.old) }
        ensures segment { IfOk result (λ child. child.segment ≡ self.now.segment) }
        ensures memories { memories.new ≡ memories.old }
    {
        let window = &mut memories[self.window.key];
        window.share()?;
        let mut registers = self.registers.copy()?;
        clear_result(&mut registers);
        Ok(NewMember {
            registers,
            slot: self.slot.copy()?,
            window: window.copy()?,
            segment: self.segment,
        })
    }

    /// Gives each byte of the registers and the slot the number that its set has from now on.
    pub fn carry(&mut self, carrying: &mut Carrying) -> Result<(), NoMemory>
        ensures carried { OnOk result (CarriesMember carrying.new self.old self.new) }
        ensures on { CarriesOn carrying.old carrying.new }
    {
        self.registers.carry(carrying)?;
        self.slot.carry(carrying)
    }

    /// The member gets a fresh segment, in the place of one that it may hold.
    pub fn shares(&mut self, held: Held)
        ensures result { ClearsResult self.old.registers self.new.registers }
        ensures others { self.new ≡ record self.old {
          registers = self.new.registers;
          segment = Some held;
        } }
    {
        self.segment = Some(held);
        self.returns();
    }
}

impl NewMember {
    /// A process none of whose bytes has a set.
    pub fn fresh(alloc: Global) -> Result<NewMember, NoMemory>
        ensures registers { IfOk result (λ member. AreZero member.registers) }
        ensures slot { IfOk result (λ member. AreZero member.slot) }
        ensures window { IfOk result (λ member. AreUnset Zero (page_len * window_pages) member.window) }
        ensures segment { IfOk result (λ member. member.segment ≡ None) }
    {
        Ok(NewMember {
            registers: Row::new(alloc)?,
            slot: Row::new(alloc)?,
            window: empty_window(alloc)?,
            segment: None,
        })
    }
}
