// The events of a group by number.
ghost use Rattle.std.specs.Prelude.{◌≡◌, [], IfErr, IfOk, OnOk, option_map};
ghost use Rattle.taint_spans.specs.Carried.{CarriesOn, HaveNumbers};
ghost use Rattle.taint_state.specs.Carried.{CarriesEvents, CarriesHeard, CarriesList, CarriesStart, IfBoth, KeepEvents};
ghost use Rattle.taint_state.specs.Events.{Hears, plain_heard};
ghost use Rattle.taint_state.specs.Heard.{HasMoved, IsGapFor, IsPlaceOf, heard_in, kept_child, kept_heard, kept_start, numbers_of, start_of};
ghost use Rattle.taint_state.specs.Kept.{heard_among};

use arn_base::NoMemory;
use std::alloc::Global;
use std::marker::Model;
use taint_pages::{Row, SetNumbers};
use taint_spans::Carrying;

/// The bytes with which a child began that started a group.
#[derive(Drop)]
pub struct ChildStart {
    pub registers: Row,
    pub slot: Row,
    pub window: SetNumbers,
}

/// What an event moved: the sets of its bytes, and what a child began with.
#[derive(Drop)]
pub struct Moved {
    pub numbers: Vec<u32>,
    pub start: Option<Box<ChildStart>>,
}

/// An event of a member. One that moved nothing takes no more than this.
#[derive(Drop)]
pub struct HeardEvent {
    pub event: u64,
    pub moved: Option<Box<Moved>>,
}

/// The events that were heard, the latest of each number, by rising numbers.
#[derive(Drop)]
pub struct HeardEvents {
    list: Vec<HeardEvent>,
}

impl Model for HeardEvents {
    ghost use Rattle.std.specs.Prelude.{List};
    ghost use Rattle.taint_state.specs.Heard.{AreInOrder};
    ghost use Rattle.taint_state.specs.declared.heard.HeardEvent.{HeardEvent};

    ghost Value = { List HeardEvent };

    ghost view = { λ e. e.list.items };

    ghost invariant = { λ e. AreInOrder e.list.items };
}

/// What an event moved with these bytes and this child, if it moved anything.
fn keep_moved(
    alloc: Global,
    numbers: Vec<u32>,
    start: Option<Box<ChildStart>>,
) -> Result<Option<Box<Moved>>, NoMemory>
    ensures { IfOk result (HasMoved numbers.items (option_map kept_child start)) }
{
    if numbers.is_empty() && start.is_none() {
        Ok(None)
    } else {
        Ok(Some(Box::new(alloc, Moved { numbers, start })?))
    }
}

impl ChildStart {
    /// Gives each byte the number that its set has from now on.
    fn carry(&mut self, carrying: &mut Carrying) -> Result<(), NoMemory>
        ensures carried { OnOk result
            (CarriesStart carrying.new (kept_start self.old) (kept_start self.new)) }
        ensures on { CarriesOn carrying.old carrying.new }
    {
        self.registers.carry(carrying)?;
        self.slot.carry(carrying)?;
        self.window.carry(carrying)
    }
}

/// The same of what a child may have begun with.
fn carry_child(carrying: &mut Carrying, child: &mut Option<Box<ChildStart>>) -> Result<(), NoMemory>
    ensures carried { OnOk result (IfBoth (CarriesStart carrying.new)
        (option_map kept_child child.old) (option_map kept_child child.new)) }
    ensures on { CarriesOn carrying.old carrying.new }
{
    match child {
        Some(start) => start.carry(carrying),
        None => Ok(()),
    }
}

/// The same of what an event moved.
fn carry_parts(carrying: &mut Carrying, moved: &mut Moved) -> Result<(), NoMemory>
    ensures numbers { OnOk result
        (HaveNumbers carrying.new moved.old.numbers.items moved.new.numbers.items) }
    ensures start { OnOk result (IfBoth (CarriesStart carrying.new)
        (option_map kept_child moved.old.start) (option_map kept_child moved.new.start)) }
    ensures on { CarriesOn carrying.old carrying.new }
{
    carry_child(carrying, &mut moved.start)?;
    carrying.carry_all(&mut moved.numbers)
}

/// The same of what an event may have moved.
fn carry_moved(carrying: &mut Carrying, moved: &mut Option<Box<Moved>>) -> Result<(), NoMemory>
    ensures numbers { OnOk result
        (HaveNumbers carrying.new (numbers_of moved.old) (numbers_of moved.new)) }
    ensures start { OnOk result
        (IfBoth (CarriesStart carrying.new) (start_of moved.old) (start_of moved.new)) }
    ensures on { CarriesOn carrying.old carrying.new }
{
    match moved {
        Some(moved) => carry_parts(carrying, moved),
        None => Ok(()),
    }
}

/// The same of an event.
fn carry_event(carrying: &mut Carrying, heard: &mut HeardEvent) -> Result<(), NoMemory>
    ensures carried { OnOk result
        (CarriesHeard carrying.new (kept_heard heard.old) (kept_heard heard.new)) }
    ensures event { heard.new.event ≡ heard.old.event }
    ensures on { CarriesOn carrying.old carrying.new }
{
    carry_moved(carrying, &mut heard.moved)
}

/// The same of each event.
fn carry_events(carrying: &mut Carrying, list: &mut Vec<HeardEvent>) -> Result<(), NoMemory>
    ensures carried { OnOk result (CarriesList carrying.new list.old.items list.new.items) }
    ensures kept { KeepEvents list.old.items list.new.items }
    ensures on { CarriesOn carrying.old carrying.new }
{
    for place in 0..list.len() {
        carry_event(carrying, &mut list[place])?;
    }
    Ok(())
}

impl HeardEvents {
    /// None was heard.
    pub fn new(alloc: Global) -> HeardEvents
        ensures { result ≡ [] }
    {
        HeardEvents {
            list: Vec::new(alloc),
        }
    }

    /// The place of an event, or the one at which it would be.
    fn search(&self, event: u64) -> Result<usize, usize>
        ensures found { IfOk result (IsPlaceOf self.now event) }
        ensures missing { IfErr result (IsGapFor self.now event) }
    {
        self.list.binary_search_by_key(&event, |heard| heard.event)
    }

    /// The event of a number.
    pub fn find(&self, event: u64) -> Option<&HeardEvent>
        ensures { option_map (λ heard. kept_heard heard.now) result ≡
            heard_among (heard_in self.now) event }
    {
        match self.search(event) {
            Ok(place) => Some(&self.list[place]),
            Err(_) => None,
        }
    }

    /// Gives each byte the number that its set has from now on.
    pub fn carry(&mut self, carrying: &mut Carrying) -> Result<(), NoMemory>
        ensures carried { OnOk result
            (CarriesEvents carrying.new (heard_in self.old) (heard_in self.new)) }
        ensures on { CarriesOn carrying.old carrying.new }
    {
        carry_events(carrying, &mut self.list)
    }

    /// An event is heard, in the place of one that had its number.
    fn put(&mut self, heard: HeardEvent) -> Result<(), NoMemory>
        ensures { OnOk result
            (Hears (kept_heard heard) (heard_in self.old) (heard_in self.new)) }
    {
        match self.search(heard.event) {
            Ok(place) => {
                self.list[place] = heard;
                Ok(())
            }
            Err(place) => Ok(self.list.insert(place, heard)?),
        }
    }

    /// An event is heard whose bytes have these sets.
    pub fn hear(&mut self, event: u64, numbers: Vec<u32>) -> Result<(), NoMemory>
        ensures { OnOk result
            (Hears (plain_heard event numbers.items) (heard_in self.old) (heard_in self.new)) }
    {
        self.hear_child(event, numbers, None)
    }

    /// A fork is heard whose child may have started a group with these bytes.
    pub fn hear_child(
        &mut self,
        event: u64,
        numbers: Vec<u32>,
        start: Option<Box<ChildStart>>,
    ) -> Result<(), NoMemory>
        ensures { OnOk result (Hears
            (record { event = event; numbers = numbers.items; start = option_map kept_child start })
            (heard_in self.old) (heard_in self.new)) }
    {
        let moved = keep_moved(*self.list.allocator(), numbers, start)?;
        self.put(HeardEvent { event, moved })
    }
}
