// The memories of processes, by key, and the access of a process to those that it holds.
ghost use Rattle.std.specs.Prelude.{◌≡◌, ◌<◌, ◌≤◌, ◌+◌, ◌^◌, ℕ, [], IfOk, OnOk, OnErr, IsSome, None, Some, length, option_copied, option_map, slice_set, take};
ghost use Rattle.acts_model.specs.Views.{bytes_in, can_reach, reach, read, stands_at, written};
ghost use Rattle.guest_bodies.specs.Kept.{AreThere, contents_of, refilled, released, segment_part, view_of, window_part, windows_for};
ghost use Rattle.guest_bodies.specs.Led.{LedFails, LedMany};
ghost use Rattle.guest_bodies.specs.Running.{LeadsMany, StopsAt, stop_count};
ghost use Rattle.guest_bodies.specs.Tables.{Adds, held_bytes};
ghost use Rattle.guest_bodies.specs.Told.{IsStop};
ghost use Rattle.guest_mem.specs.Pages.{IsEnough, NoneOwn};
ghost use Rattle.parts_model.specs.Blocks.{blocks_of};
ghost use Rattle.parts_model.specs.Numbered.{nth};
ghost use Rattle.rv64_core.specs.Outcome.{Tells, OnStop};
ghost use Rattle.rv64_core.specs.Prospect.{Foretells};

use crate::guest::{Guest, Held};
use crate::reach::{Reach, write_alone};
use crate::running::{self, Stood};
use crate::table::{is_segment_held, is_window_held};
use crate::told::{self, Stretch};
use acts_model::Observer;
use arn_base::{BadAddress, Blocks, Bytes, NoMemory, Steps};
use guest_mem::{Segment, Space, Spare};
use numbered::Numbered;
use rv64_core::{Decoder, Outcome, Prospect};
use std::alloc::Global;
use std::marker::Model;
use std::sync::ledger::Ledger;

/// Private windows and segments, each by its key. Some processes may hold one of them together.
#[derive(Drop)]
pub struct Memories {
    windows: Numbered<Space>,
    segments: Numbered<Segment>,
}

impl Model for Memories {
    ghost use Rattle.guest_bodies.specs.Tables.{Tables, bytes_by_key};

    ghost Value = { Tables };

    ghost view = { λ m. record { windows = bytes_by_key m.windows; segments = m.segments } };
}

impl Memories {
    /// No memory.
    pub fn new(alloc: Global) -> Memories
        ensures { result ≡ record { windows = []; segments = [] } }
    {
        Memories {
            windows: Numbered::new(alloc),
            segments: Numbered::new(alloc),
        }
    }

    /// A key under which there is no window, and room for one.
    pub fn window_room(&mut self) -> Result<usize, NoMemory>
        ensures room { IfOk result (λ key. key < length self.new.windows) }
        ensures none { IfOk result (λ key. nth self.new.windows key ≡ None) }
        ensures windows { (k : ℕ) → nth self.new.windows k ≡ nth self.old.windows k }
        ensures segments { self.new.segments ≡ self.old.segments }
        ensures err { OnErr result (self.new ≡ self.old) }
    {
        self.windows.free_room()
    }

    /// A window comes under a key for which there is room.
    pub fn put_window(&mut self, key: usize, space: Space)
        requires { key < length self.old.windows }
        ensures { self.new ≡
            record self.old { windows = slice_set self.old.windows key (Some space.bytes) } }
    {
        self.windows.put(key, space);
    }

    /// A window comes under a key that has none.
    pub fn add_window(&mut self, space: Space) -> Result<usize, NoMemory>
        ensures adds { IfOk result (λ key. Adds key space.bytes self.old.windows self.new.windows) }
        ensures segments { self.new.segments ≡ self.old.segments }
        ensures err { OnErr result (self.new ≡ self.old) }
    {
        self.windows.add(space)
    }

    /// A segment comes under a key that has none.
    pub fn add_segment(&mut self, segment: Segment) -> Result<usize, NoMemory>
        ensures adds { IfOk result (λ key. Adds key segment self.old.segments self.new.segments) }
        ensures windows { self.new.windows ≡ self.old.windows }
        ensures err { OnErr result (self.new ≡ self.old) }
    {
        self.segments.add(segment)
    }

    /// A window with the same bytes, which shares the pages. What is held shows the same.
    pub fn copy_window(&mut self, window: Held) -> Result<Space, NoMemory>
        requires { IsSome (nth self.old.windows window.key) }
        ensures bytes { IfOk result (λ space. nth self.old.windows window.key ≡ Some space.bytes) }
        ensures shared { IfOk result (λ space. NoneOwn space.own) }
        ensures same { self.new ≡ self.old }
    {
        let space = self.windows.at_mut(window.key);
        space.share()?;
        space.copy()
    }

    /// The window that a process has held goes, unless one of these holds it still.
    pub fn release_window(&mut self, guests: &[Option<Guest>], window: Held)
        ensures { self.new ≡ record self.old {
          windows = released window_part guests.now (Some window) self.old.windows;
        } }
    {
        if !is_window_held(guests, window.key) {
            self.windows.remove(window.key);
        }
    }

    /// The segment that a process has held goes, unless one of these holds it still.
    pub fn release_segment(&mut self, guests: &[Option<Guest>], segment: Option<Held>)
        ensures { self.new ≡ record self.old {
          segments = released segment_part guests.now segment self.old.segments;
        } }
    {
        if let Some(held) = segment {
            if !is_segment_held(guests, held.key) {
                self.segments.remove(held.key);
            }
        }
    }

    // Brings both memories of a process that holds a segment out of the tables.
    #[inline]
    fn lend(&mut self, window: Held, segment: Held) -> Reach
        requires window { IsSome (nth self.old.windows window.key) }
        requires segment { IsSome (nth self.old.segments segment.key) }
        ensures space { nth self.old.windows window.key ≡ Some result.space.bytes }
        ensures segment { nth self.old.segments segment.key ≡ Some result.segment }
        ensures tables { self.new ≡ record {
          windows = slice_set self.old.windows window.key None;
          segments = slice_set self.old.segments segment.key None;
        } }
    {
        Reach {
            space: self.windows.take_at(window.key),
            segment: self.segments.take_at(segment.key),
        }
    }

    // Brings them back.
    #[inline]
    fn take_back(&mut self, window: Held, segment: Held, memory: Reach)
        requires window { window.key < length self.old.windows }
        requires segment { segment.key < length self.old.segments }
        ensures { self.new ≡ record {
          windows = slice_set self.old.windows window.key (Some memory.space.bytes);
          segments = slice_set self.old.segments segment.key (Some memory.segment);
        } }
    {
        self.windows.put(window.key, memory.space);
        self.segments.put(segment.key, memory.segment);
    }

    // The same as `step`, with both memories brought to the process.
    fn step_lent<L: Ledger>(
        &mut self,
        guest: &mut Guest,
        segment: Held,
        steps: &mut Steps<L>,
    ) -> Outcome
        requires there { AreThere self.old guest.old }
        requires held { guest.old.segment ≡ Some segment }
        ensures tick { steps.new ≡ steps.old + 1 }
        ensures effect { Tells result (stands_at (view_of self.old guest.old))
            guest.new.cpu (reach (view_of self.new guest.new)) }
        ensures guest { guest.new ≡ record guest.old { cpu = guest.new.cpu } }
        ensures tables { self.new ≡ refilled guest.old (contents_of self.new guest.old) self.old }
        ensures stop { OnStop result (guest.new ≡ guest.old) }
        ensures same { OnStop result (self.new ≡ self.old) }
    {
        let mut memory = self.lend(guest.window, segment);
        let outcome = rv64_core::step(&mut guest.cpu, &mut memory, steps);
        self.take_back(guest.window, segment, memory);
        outcome
    }

    /// Runs the instruction at which the process stands, and counts it.
    #[inline(always)]
    pub fn step<L: Ledger>(&mut self, guest: &mut Guest, steps: &mut Steps<L>) -> Outcome
        requires { AreThere self.old guest.old }
        ensures tick { steps.new ≡ steps.old + 1 }
        ensures effect { Tells result (stands_at (view_of self.old guest.old))
            guest.new.cpu (reach (view_of self.new guest.new)) }
        ensures guest { guest.new ≡ record guest.old { cpu = guest.new.cpu } }
        ensures tables { self.new ≡ refilled guest.old (contents_of self.new guest.old) self.old }
        ensures stop { OnStop result (guest.new ≡ guest.old) }
        ensures same { OnStop result (self.new ≡ self.old) }
    {
        match guest.segment {
            Some(segment) => self.step_lent(guest, segment, steps),
            None => {
                let space = self.windows.at_mut(guest.window.key);
                rv64_core::step(&mut guest.cpu, space, steps)
            }
        }
    }

    /// Runs up to so many instructions of a process that the next one follows, and counts them. Its
    /// memories are brought to it once.
    #[inline]
    pub fn run<L: Ledger>(
        &mut self,
        guest: &mut Guest,
        count: u32,
        decoder: &mut Decoder,
        steps: &mut Steps<L>,
    ) -> Stood
        requires { AreThere self.old guest.old }
        ensures tick { steps.new ≡ steps.old + result.ran + stop_count result.outcome }
        ensures many { LeadsMany (windows_for guest.old.segment) result.ran
            guest.old.cpu (contents_of self.old guest.old)
            guest.new.cpu (contents_of self.new guest.old) }
        ensures guest { guest.new ≡ record guest.old { cpu = guest.new.cpu } }
        ensures tables { self.new ≡ refilled guest.old (contents_of self.new guest.old) self.old }
        ensures stops { StopsAt result.outcome result.ran count
            (stands_at (view_of self.new guest.new)) }
    {
        match guest.segment {
            Some(segment) => {
                let mut memory = self.lend(guest.window, segment);
                let stood = running::run(&mut guest.cpu, &mut memory, count, decoder, steps);
                self.take_back(guest.window, segment, memory);
                stood
            }
            None => {
                let space = self.windows.at_mut(guest.window.key);
                running::run(&mut guest.cpu, space, count, decoder, steps)
            }
        }
    }

    /// Runs so many instructions of a process, or fewer where the next one doesn't follow, and says how
    /// many. The observer is told of each before it. The one at which it stops is counted too. Its
    /// memories are brought to it once.
    #[inline]
    pub fn run_told<O: Observer, L: Ledger>(
        &mut self,
        guest: &mut Guest,
        stretch: Stretch,
        observer: &mut O,
        decoder: &mut Decoder,
        steps: &mut Steps<L>,
    ) -> Result<u32, NoMemory>
        requires { AreThere self.old guest.old }
        ensures told { IfOk result (λ ran.
            LedMany (windows_for guest.old.segment) O.runs stretch.pid ran
            guest.old.cpu (contents_of self.old guest.old) observer.old
            guest.new.cpu (contents_of self.new guest.old) observer.new) }
        ensures guest { guest.new ≡ record guest.old { cpu = guest.new.cpu } }
        ensures tables { self.new ≡ refilled guest.old (contents_of self.new guest.old) self.old }
        ensures within { IfOk result (λ ran. ran ≤ stretch.count) }
        ensures stops { IfOk result (λ ran. ran < stretch.count →
            IsStop (stands_at (view_of self.new guest.new))) }
        ensures counted { IfOk result (λ ran. ran ≡ stretch.count → steps.new ≡ steps.old + ran) }
        ensures stopped { IfOk result (λ ran.
            ran < stretch.count → steps.new ≡ steps.old + ran + 1) }
        ensures failed { OnErr result (
            LedFails (windows_for guest.old.segment) O.runs stretch.pid stretch.count
            guest.old.cpu (contents_of self.old guest.old) observer.old
            guest.new.cpu (contents_of self.new guest.old) steps.old steps.new) }
        ensures bounded { steps.new ≤ steps.old + stretch.count }
    {
        let cpu = &mut guest.cpu;
        match guest.segment {
            Some(segment) => {
                let mut memory = self.lend(guest.window, segment);
                let ran = told::run_told(cpu, &mut memory, stretch, observer, decoder, steps);
                self.take_back(guest.window, segment, memory);
                ran
            }
            None => {
                let space = self.windows.at_mut(guest.window.key);
                told::run_told(cpu, space, stretch, observer, decoder, steps)
            }
        }
    }

    /// Says what the instruction at which the process stands would come to, and counts it.
    pub fn next_instr<L: Ledger>(&mut self, guest: &Guest, steps: &mut Steps<L>) -> Prospect
        requires { AreThere self.old guest.now }
        ensures tick { steps.new ≡ steps.old + 1 }
        ensures effect { Foretells result guest.now.cpu (stands_at (view_of self.old guest.now)) }
        ensures same { self.new ≡ self.old }
    {
        match guest.segment {
            Some(segment) => {
                let memory = self.lend(guest.window, segment);
                let prospect = rv64_core::next_instr(&guest.cpu, &memory, steps);
                self.take_back(guest.window, segment, memory);
                prospect
            }
            None => {
                let space = self.windows.at(guest.window.key);
                rv64_core::next_instr(&guest.cpu, space, steps)
            }
        }
    }

    /// Writes bytes at an address of a process, where they lie whole in one window, with memory that is
    /// in hand.
    pub fn write(&mut self, guest: &Guest, at: u64, bytes: &[u8], spare: Spare)
        requires there { AreThere self.old guest.now }
        requires enough { IsEnough (length bytes.now) spare }
        ensures tables { self.new ≡ refilled guest.now (contents_of self.new guest.now) self.old }
        ensures written { view_of self.new guest.now ≡
            written at bytes.now (view_of self.old guest.now) }
    {
        match guest.segment {
            Some(segment) => {
                let mut memory = self.lend(guest.window, segment);
                memory.write(at, bytes, spare);
                self.take_back(guest.window, segment, memory);
            }
            None => write_alone(self.windows.at_mut(guest.window.key), at, bytes, spare),
        }
    }

    // The segment that a process holds.
    #[inline(always)]
    fn segment_of(&self, guest: &Guest) -> Option<&Segment>
        requires { AreThere self.now guest.now }
        ensures { option_copied result ≡
            option_map (λ held. held_bytes self.now.segments (Some held)) guest.now.segment }
    {
        Some(self.segments.at(guest.segment?.key))
    }

    /// Whether a range of addresses lies whole in one window.
    pub fn can_reach(&self, guest: &Guest, at: u64, len: u64) -> bool
        requires { AreThere self.now guest.now }
        ensures { result ≡ can_reach (view_of self.now guest.now) at len }
    {
        self.windows.at(guest.window.key).can_reach(at, len)
            || self
                .segment_of(guest)
                .is_some_and(|segment| segment.slice(at, len).is_ok())
    }

    /// Copies the bytes of a range of addresses, as many as the buffer has, where they lie whole in one
    /// window.
    #[inline(always)]
    pub fn read_into(&self, guest: &Guest, at: u64, buf: &mut [u8]) -> Result<(), BadAddress>
        requires { AreThere self.now guest.now }
        ensures ok { OnOk result
            (bytes_in (view_of self.now guest.now) at (length buf.old) ≡ Some buf.new) }
        ensures err { OnErr result
            (bytes_in (view_of self.now guest.now) at (length buf.old) ≡ None) }
        ensures same { OnErr result (buf.new ≡ buf.old) }
    {
        let space = self.windows.at(guest.window.key);
        match (space.read_into(at, buf), self.segment_of(guest)) {
            (Err(BadAddress), Some(segment)) => segment.read_into(at, buf),
            (done, _) => done,
        }
    }

    /// The first bytes of a range of addresses, where it lies whole in one window.
    pub fn first_of(
        &self,
        guest: &Guest,
        at: u64,
        len: u64,
        first: u64,
    ) -> Result<Option<Bytes>, NoMemory>
        requires { AreThere self.now guest.now }
        ensures { IfOk result (λ copy. copy ≡
            option_map (take first) (bytes_in (view_of self.now guest.now) at len)) }
    {
        let space = self.windows.at(guest.window.key);
        match (space.first_of(at, len, first)?, self.segment_of(guest)) {
            (None, Some(segment)) => segment.first_of(at, len, first),
            (found, _) => Ok(found),
        }
    }

    /// The bytes of a range of addresses, where they lie whole in one window.
    pub fn copy(&self, guest: &Guest, at: u64, len: u64) -> Result<Option<Bytes>, NoMemory>
        requires { AreThere self.now guest.now }
        ensures { IfOk result (λ copy. copy ≡ bytes_in (view_of self.now guest.now) at len) }
    {
        self.first_of(guest, at, len, len)
    }

    /// The bytes of a range of addresses, none where they don't lie whole in one window.
    pub fn block(&self, alloc: Global, guest: &Guest, at: u64, len: u64) -> Result<Bytes, NoMemory>
        requires { AreThere self.now guest.now }
        ensures bytes { IfOk result (λ block. block ≡ read (view_of self.now guest.now) at len) }
        ensures few { IfOk result (λ block. length block ≤ len) }
    {
        match self.copy(guest, at, len)? {
            Some(bytes) => Ok(bytes),
            None => Ok(Bytes::new(alloc)),
        }
    }

    /// The blocks that aren't all zero of a private window.
    pub fn window_blocks(&self, window: Held) -> Result<Blocks, NoMemory>
        requires { IsSome (nth self.now.windows window.key) }
        ensures blocks { IfOk result (λ blocks.
            blocks ≡ blocks_of (held_bytes self.now.windows (Some window))) }
        ensures few { IfOk result (λ blocks. length blocks < 2 ^ 16) }
    {
        let space = self.windows.at(window.key);
        let _length = space.len();
        space.blocks()
    }

    /// The blocks that aren't all zero of the segment that a process holds, none where it holds none.
    pub fn segment_blocks(&self, alloc: Global, guest: &Guest) -> Result<Blocks, NoMemory>
        requires { AreThere self.now guest.now }
        ensures { IfOk result (λ blocks.
            blocks ≡ blocks_of (held_bytes self.now.segments guest.now.segment)) }
    {
        match self.segment_of(guest) {
            Some(segment) => segment.blocks(),
            None => Ok(Blocks::new(alloc)),
        }
    }
}
