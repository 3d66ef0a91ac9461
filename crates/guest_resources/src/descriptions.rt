// Open descriptions by number.
ghost use Rattle.std.specs.Prelude.{◌≡◌, ◌++◌, ◌∷◌, ◌-◌, ◌<◌, ◌^◌, [], length, take, IfOk, IsOk, IsSome, IsTrue, OnOk, OnErr, Some, option_map, slice_set};
ghost use Rattle.parts_model.specs.Numbered.{nth};
ghost use Rattle.arn_model.specs.Kernel.{with_what};
ghost use Rattle.guest_resources.specs.Opened.{fewer, first_descriptions, last_of, more, opened_of};
ghost use Rattle.guest_resources.specs.Rooms.{fits};

use arn_base::NoMemory;
use parts_model::Description;
use std::alloc::Global;
use std::marker::Model;

/// How many descriptions are made at most.
const MOST: usize = 0x8000_0000;

/// What an open description is, and how many descriptors stand for it.
#[derive(Clone, Copy)]
pub struct Opened {
    pub what: Description,
    pub descriptors: u32,
}

/// The descriptions that were opened, numbered from 0. One without descriptors is gone, and its
/// number isn't given again.
#[derive(Drop)]
pub struct Descriptions {
    all: Vec<Option<Opened>>,
}

impl Model for Descriptions {
    ghost use Rattle.std.specs.Prelude.{List, Option, ◌≤◌, ◌^◌, length};
    ghost use Rattle.arn_model.specs.Kernel.{Opened as OpenedModel};

    ghost Value = { List (Option OpenedModel) };

    ghost use Rattle.guest_resources.specs.Opened.{shown_all};

    ghost view = { λ s. shown_all s.all.items };

    ghost invariant = { λ s. length s.all.items ≤ 2 ^ 31 };
}

impl Descriptions {
    pub fn new(alloc: Global) -> Descriptions
        ensures { result ≡ [] }
    {
        Descriptions {
            all: Vec::new(alloc),
        }
    }

    /// The console, for which three descriptors of process 1 stand.
    pub fn first(alloc: Global) -> Result<Descriptions, NoMemory>
        ensures { IfOk result (λ descriptions. descriptions ≡ first_descriptions) }
    {
        let mut descriptions = Descriptions::new(alloc);
        descriptions.add(Description::Console, 3)?;
        Ok(descriptions)
    }

    // A description, if it is there.
    fn get(&self, number: u32) -> Option<Opened>
        ensures { option_map opened_of result ≡ nth self.now number }
    {
        let place = number as usize;
        if place >= self.all.len() {
            return None;
        }
        self.all[place]
    }

    // Puts another description in the place of one, or none.
    fn put(&mut self, number: u32, opened: Option<Opened>)
        requires { IsSome (nth self.old number) }
        ensures { self.new ≡ slice_set self.old number (option_map opened_of opened) }
    {
        self.all[number as usize] = opened;
    }

    /// What a description is, if it is there.
    pub fn find(&self, number: u32) -> Option<Description>
        ensures { result ≡ option_map (λ o. o.what) (nth self.now number) }
    {
        Some(self.get(number)?.what)
    }

    /// Opens a description, for which so many descriptors stand, and answers its number.
    pub fn add(&mut self, what: Description, descriptors: u32) -> Result<u32, NoMemory>
        ensures opened { OnOk result (self.new ≡ self.old ++
            Some (record { what = what; descriptors = descriptors }) ∷ []) }
        ensures number { IfOk result (λ number. number ≡ length self.old) }
        ensures few { OnOk result (length self.old < 2 ^ 31) }
        ensures err { OnErr result (self.new ≡ self.old) }
    {
        let place = self.all.len();
        if place >= MOST {
            return Err(NoMemory);
        }
        self.all.push(Some(Opened { what, descriptors }))?;
        Ok(place as u32)
    }

    /// Takes the last description back.
    pub fn remove_last(&mut self)
        ensures { self.new ≡ take (length self.old - 1) self.old }
    {
        let _ = self.all.pop();
    }

    /// Whether so many descriptors more can stand for a description.
    pub fn has_room(&self, number: u32, count: usize) -> bool
        ensures { result ≡ fits count (nth self.now number) }
    {
        match self.get(number) {
            Some(opened) => count <= (u32::MAX - opened.descriptors) as usize,
            None => true,
        }
    }

    /// One descriptor more stands for a description. NoMemory says that there are too many.
    pub fn hold_one(&mut self, number: u32) -> Result<(), NoMemory>
        ensures more { OnOk result (self.new ≡ more number (nth self.old number) self.old) }
        ensures enough { IsTrue (fits 1 (nth self.old number)) → IsOk result }
        ensures err { OnErr result (self.new ≡ self.old) }
    {
        let opened = match self.get(number) {
            Some(opened) => opened,
            None => return Ok(()),
        };
        if opened.descriptors == u32::MAX {
            return Err(NoMemory);
        }
        self.put(
            number,
            Some(Opened {
                what: opened.what,
                descriptors: opened.descriptors + 1,
            }),
        );
        Ok(())
    }

    /// One descriptor fewer stands for a description. Where there is none left, the description is
    /// gone, and this answers what it was.
    pub fn drop_one(&mut self, number: u32) -> Option<Description>
        ensures fewer { self.new ≡ fewer number (nth self.old number) self.old }
        ensures last { result ≡ last_of (nth self.old number) }
    {
        let opened = self.get(number)?;
        if opened.descriptors > 1 {
            self.put(
                number,
                Some(Opened {
                    what: opened.what,
                    descriptors: opened.descriptors - 1,
                }),
            );
            None
        } else {
            self.put(number, None);
            Some(opened.what)
        }
    }

    /// Another description in the place of one.
    pub fn change(&mut self, number: u32, what: Description)
        ensures { self.new ≡ slice_set self.old number
            (option_map (with_what what) (nth self.old number)) }
    {
        if let Some(opened) = self.get(number) {
            self.put(
                number,
                Some(Opened {
                    what,
                    descriptors: opened.descriptors,
                }),
            );
        }
    }
}
