// The bodies of live processes.
ghost use Rattle.std.specs.Prelude.{◌≡◌, ◌≤◌, ◌<◌, ◌+◌, ◌^◌, ◌↔◌, ℕ, [], length, true, false, Some, None, IfSome, IsNone, IsTrue, All, IfOk, OnOk, OnErr, is_some, option_map, take};
ghost use Rattle.acts_model.specs.Acts.{Act, Receives, Starts, Forks, Founds, Shares, Leaves, Delivers, begun, beginning_in, beginning_of, done, start_of, unborn};
ghost use Rattle.acts_model.specs.Bodies.{put};
ghost use Rattle.parts_model.specs.Blocks.{blocks_of};
ghost use Rattle.parts_model.specs.Image.{is_image, read_as_image};
ghost use Rattle.parts_model.specs.Numbered.{nth};
ghost use Rattle.parts_model.specs.Signals.{can_set, due_signal, handler_of, is_signal, with_handler, with_pending, without};
ghost use Rattle.acts_model.specs.Views.{bytes_in, can_reach, cpu_at_start, read, stands_at, window_at_start};
ghost use Rattle.guest_mem.specs.Pages.{IsEnough};
ghost use Rattle.rv64_core.specs.Outcome.{OnStop};
ghost use Rattle.rv64_core.specs.Prospect.{Foretells};
ghost use Rattle.guest_bodies.specs.Follows.{Follows, KeepsWatches, Ran, Rewatches, SetsWatch, IsResult, IsEnd};
ghost use Rattle.guest_bodies.specs.Running.{RanMany, StopsAt, stop_count};
ghost use Rattle.guest_bodies.specs.Shown.{IsFresh, IsInside, IsLive, fresh_watch, inherited, restarted, seen_in, signals_in, watch_in};
ghost use Rattle.guest_bodies.specs.Told.{FailsAt, IsStop, ToldMany};

use crate::guest::{Guest, Held, begin, boot};
use crate::memories::Memories;
use crate::running::Stood;
use crate::starting::First;
use crate::table::fork;
use crate::told::Stretch;
use crate::windows::window_of;
use acts_model::Observer;
use arn_base::{BadAddress, Blocks, Bytes, Cpu, NoMemory, Start, Steps};
use guest_mem::{Segment, Spare};
use numbered::Numbered;
use parts_model::limits::MOST_BLOCK_BYTES;
use rv64_core::{Decoder, Outcome, Prospect};
use std::alloc::Global;
use std::marker::Model;
use std::sync::ledger::Ledger;

/// The registers, save slots and memories of live processes, by process number.
#[derive(Drop)]
pub struct Bodies {
    alloc: Global,
    guests: Numbered<Guest>,
    memories: Memories,
    decoder: Decoder,
}

impl Model for Bodies {
    ghost use Rattle.guest_bodies.specs.Shown.{Guests};
    ghost use Rattle.guest_bodies.specs.Kept.{shown_all, IsKept};

    ghost Value = { Guests };

    ghost view = { λ b. shown_all b.guests b.memories };

    ghost invariant = { λ b. IsKept b.guests b.memories };
}

impl Bodies {
    /// No process.
    pub fn new(alloc: Global) -> Bodies
        ensures { result ≡ [] }
    {
        Bodies {
            alloc,
            guests: Numbered::new(alloc),
            memories: Memories::new(alloc),
            decoder: Decoder::new(alloc),
        }
    }

    /// A call of a process that moves no bytes to it ends with a result.
    pub fn returns(&mut self, pid: u32, answer: u64)
        requires live { IsLive self.old pid }
        ensures follows { (event : ℕ) → (act : Act) → IsResult act answer →
            Follows self.old (done pid event act) self.new }
        ensures watches { KeepsWatches self.old self.new }
    {
        self.guests.at_mut(pid as usize).returns(answer)
    }

    /// Runs the instruction at which a process stands, and counts it whatever it comes to. It is
    /// one call of `rv64_core::step` on the process's registers and memories.
    #[inline(always)]
    pub fn step<L: Ledger>(&mut self, pid: u32, steps: &mut Steps<L>) -> Outcome
        requires live { IsLive self.old pid }
        ensures tick { steps.new ≡ steps.old + 1 }
        ensures ran { Ran result pid self.old self.new }
        ensures stop { OnStop result (self.new ≡ self.old) }
        ensures watches { KeepsWatches self.old self.new }
    {
        let guest = self.guests.at_mut(pid as usize);
        self.memories.step(guest, steps)
    }

    /// Runs up to so many instructions of a process, as long as the next one follows, and counts them.
    /// A call or an end at which it stops is counted too, and so is a store that finds no memory.
    pub fn run<L: Ledger>(&mut self, pid: u32, count: u32, steps: &mut Steps<L>) -> Stood
        requires live { IsLive self.old pid }
        ensures tick { steps.new ≡ steps.old + result.ran + stop_count result.outcome }
        ensures ran { RanMany result.ran pid self.old self.new }
        ensures stops { IfSome (seen_in self.new pid) (λ v.
            StopsAt result.outcome result.ran count (stands_at v)) }
        ensures watches { KeepsWatches self.old self.new }
        ensures live { IsLive self.new pid }
    {
        let guest = self.guests.at_mut(pid as usize);
        self.memories.run(guest, count, &mut self.decoder, steps)
    }

    /// Says what the instruction at which a process stands would come to, and counts it whatever that
    /// is. It is one call of `rv64_core::next_instr` on the process's registers and memories.
    pub fn next_instr<L: Ledger>(&mut self, pid: u32, steps: &mut Steps<L>) -> Prospect
        requires live { IsLive self.old pid }
        ensures tick { steps.new ≡ steps.old + 1 }
        ensures foretells { IfSome (seen_in self.old pid) (λ v.
            Foretells result v.body.cpu (stands_at v)) }
        ensures same { self.new ≡ self.old }
    {
        self.memories
            .next_instr(self.guests.at(pid as usize), steps)
    }

    /// Runs so many instructions of a process, or fewer where it comes to a call or to its end, and
    /// says how many. The observer is told of each, with the registers before it. The one at which the
    /// process stops is counted too, and so is one at which the observer fails or a store finds no
    /// memory: it isn't run.
    pub fn run_told<O: Observer, L: Ledger>(
        &mut self,
        pid: u32,
        count: u32,
        observer: &mut O,
        steps: &mut Steps<L>,
    ) -> Result<u32, NoMemory>
        requires live { IsLive self.old pid }
        ensures told { IfOk result (λ ran.
            ToldMany O.runs pid ran self.old self.new observer.old observer.new) }
        ensures within { IfOk result (λ ran. ran ≤ count) }
        ensures stops { IfOk result (λ ran. ran < count →
            IfSome (seen_in self.new pid) (λ v. IsStop (stands_at v))) }
        ensures counted { IfOk result (λ ran. ran ≡ count → steps.new ≡ steps.old + ran) }
        ensures stopped { IfOk result (λ ran. ran < count → steps.new ≡ steps.old + ran + 1) }
        ensures failed { OnErr result (FailsAt O.runs pid count self.old self.new
            observer.old steps.old steps.new) }
        ensures bounded { steps.new ≤ steps.old + count }
        ensures watches { KeepsWatches self.old self.new }
    {
        let guest = self.guests.at_mut(pid as usize);
        let stretch = Stretch { pid, count };
        let decoder = &mut self.decoder;
        self.memories
            .run_told(guest, stretch, observer, decoder, steps)
    }

    /// Memory for so many bytes that a process receives.
    pub fn spare(&self, len: u64) -> Result<Spare, NoMemory>
        ensures { IfOk result (IsEnough len) }
    {
        Spare::new(self.alloc, len)
    }

    /// A call of a process ends with a result and with bytes for it at an address. Where they don't
    /// lie whole in one window, it gets none. The memory that this may take is in hand.
    pub fn receives(&mut self, pid: u32, at: u64, bytes: &[u8], answer: u64, spare: Spare)
        requires live { IsLive self.old pid }
        requires enough { IsEnough (length bytes.now) spare }
        ensures follows { (event : ℕ) →
            Follows self.old (done pid event (Receives at bytes.now answer)) self.new }
        ensures watches { KeepsWatches self.old self.new }
    {
        let guest = self.guests.at_mut(pid as usize);
        self.memories.write(guest, at, bytes, spare);
        guest.returns(answer);
    }

    /// Whether a range of a process's addresses lies whole in one window.
    pub fn can_reach(&self, pid: u32, at: u64, len: u64) -> bool
        requires live { IsLive self.now pid }
        ensures { IfSome (seen_in self.now pid) (λ v. result ≡ can_reach v at len) }
    {
        self.memories
            .can_reach(self.guests.at(pid as usize), at, len)
    }

    /// Copies the bytes at an address of a process, as many as the buffer has, where they lie whole in
    /// one window.
    #[inline(always)]
    pub fn read_into(&self, pid: u32, at: u64, buf: &mut [u8]) -> Result<(), BadAddress>
        requires live { IsLive self.now pid }
        ensures ok { OnOk result (IfSome (seen_in self.now pid) (λ v.
            bytes_in v at (length buf.old) ≡ Some buf.new)) }
        ensures err { OnErr result (IfSome (seen_in self.now pid) (λ v.
            bytes_in v at (length buf.old) ≡ None)) }
        ensures same { OnErr result (buf.new ≡ buf.old) }
    {
        self.memories
            .read_into(self.guests.at(pid as usize), at, buf)
    }

    /// The bytes of a range of a process's addresses, where they lie whole in one window.
    pub fn copy(&self, pid: u32, at: u64, len: u64) -> Result<Option<Bytes>, NoMemory>
        requires live { IsLive self.now pid }
        ensures { IfOk result (λ copy. IfSome (seen_in self.now pid) (λ v.
            copy ≡ bytes_in v at len)) }
    {
        self.memories.copy(self.guests.at(pid as usize), at, len)
    }

    /// The first bytes of a range of a process's addresses, where it lies whole in one window.
    pub fn first_of(
        &self,
        pid: u32,
        at: u64,
        len: u64,
        first: u64,
    ) -> Result<Option<Bytes>, NoMemory>
        requires live { IsLive self.now pid }
        ensures { IfOk result (λ copy. IfSome (seen_in self.now pid) (λ v.
            copy ≡ option_map (take first) (bytes_in v at len))) }
    {
        self.memories
            .first_of(self.guests.at(pid as usize), at, len, first)
    }

    /// Sets a handler, or takes one away where it is 0. False says that it may not be set.
    pub fn set_handler(&mut self, pid: u32, signal: u8, handler: u64) -> bool
        requires live { IsLive self.old pid }
        ensures allowed { result ≡ can_set signal handler }
        ensures set { IsTrue result → Rewatches pid (λ w.
            record w { handlers = with_handler w.handlers signal handler }) self.old self.new }
        ensures refused { result ≡ false → self.new ≡ self.old }
    {
        self.guests
            .at_mut(pid as usize)
            .signals
            .set(signal, handler)
    }

    /// Makes a signal pending.
    pub fn post(&mut self, pid: u32, signal: u8)
        requires live { IsLive self.old pid }
        requires signal { IsTrue (is_signal signal) }
        ensures { Rewatches pid (λ w.
            record w { pending = with_pending w.pending signal true }) self.old self.new }
    {
        self.guests.at_mut(pid as usize).signals.post(signal)
    }

    /// A handler begins, without a look at what is pending. `cut` says that this ends a call.
    pub fn delivers(&mut self, pid: u32, signal: u8, handler: u64, cut: bool)
        requires live { IsLive self.old pid }
        ensures follows { (event : ℕ) →
            Follows self.old (done pid event (Delivers signal handler cut)) self.new }
        ensures watches { KeepsWatches self.old self.new }
    {
        self.guests
            .at_mut(pid as usize)
            .delivers(signal, handler, cut)
    }

    /// A handler ends. False says that none runs: then nothing changes.
    pub fn leaves(&mut self, pid: u32) -> bool
        requires live { IsLive self.old pid }
        ensures left { IfSome (seen_in self.old pid) (λ v. result ≡ is_some v.body.slot) }
        ensures follows { (event : ℕ) → Follows self.old (done pid event Leaves) self.new }
        ensures watches { KeepsWatches self.old self.new }
    {
        self.guests.at_mut(pid as usize).leaves()
    }

    /// A process ends.
    pub fn ends(&mut self, pid: u32)
        requires live { IsLive self.old pid }
        ensures follows { (event : ℕ) → (act : Act) → IsEnd act →
            Follows self.old (done pid event act) self.new }
        ensures watches { SetsWatch pid None self.old self.new }
    {
        let guest = self.guests.take_at(pid as usize);
        self.memories
            .release_window(self.guests.as_slice(), guest.window);
        self.memories
            .release_segment(self.guests.as_slice(), guest.segment);
    }

    /// A process makes a child in its own group, whose number it gets as the call's result. The
    /// child shares its segment.
    pub fn forks(&mut self, pid: u32, child: u32, event: u64) -> Result<(), NoMemory>
        requires live { IsLive self.old pid }
        requires dead { IsNone (nth self.old child) }
        requires fresh { IsFresh self.old event }
        ensures follows { OnOk result (Follows self.old (done pid event (Forks child)) self.new) }
        ensures watches { OnOk result
            (SetsWatch child (option_map inherited (watch_in self.old pid)) self.old self.new) }
        ensures err { OnErr result (self.new ≡ self.old) }
    {
        let key = self.memories.window_room()?;
        let parent = self.guests.at(pid as usize);
        let space = self.memories.copy_window(parent.window)?;
        let guest = parent.child(Held { made: event, key }, parent.segment);
        self.guests.make_room(child)?;
        self.memories.put_window(key, space);
        fork(&mut self.guests, pid, child, guest);
        Ok(())
    }

    /// A process makes a child that starts a group, whose number it gets as the call's result. The
    /// child holds no segment.
    pub fn founds(&mut self, pid: u32, child: u32, event: u64) -> Result<(), NoMemory>
        requires live { IsLive self.old pid }
        requires dead { IsNone (nth self.old child) }
        requires fresh { IsFresh self.old event }
        ensures follows { OnOk result (IfSome (seen_in self.old pid) (λ v.
            Follows self.old (λ b. begun child event (beginning_of v)
            (done pid event (Founds child) b)) self.new)) }
        ensures watches { OnOk result
            (SetsWatch child (option_map inherited (watch_in self.old pid)) self.old self.new) }
        ensures err { OnErr result (self.new ≡ self.old) }
    {
        let key = self.memories.window_room()?;
        let parent = self.guests.at(pid as usize);
        let space = self.memories.copy_window(parent.window)?;
        let guest = parent.child(Held { made: event, key }, None);
        self.guests.make_room(child)?;
        self.memories.put_window(key, space);
        fork(&mut self.guests, pid, child, guest);
        Ok(())
    }

    /// A process gets a fresh segment of zeros, in the place of one that it may hold.
    pub fn shares(&mut self, pid: u32, event: u64) -> Result<(), NoMemory>
        requires live { IsLive self.old pid }
        requires fresh { IsFresh self.old event }
        ensures follows { OnOk result (Follows self.old (done pid event Shares) self.new) }
        ensures watches { KeepsWatches self.old self.new }
        ensures err { OnErr result (self.new ≡ self.old) }
    {
        let segment = Segment::new(self.alloc)?;
        let key = self.memories.add_segment(segment)?;
        let guest = self.guests.at_mut(pid as usize);
        let former = guest.shares(Held { made: event, key });
        self.memories
            .release_segment(self.guests.as_slice(), former);
        Ok(())
    }

    /// A child begins that starts a group, as a record tells. It takes signals as if no handler had
    /// been set.
    pub fn begin(&mut self, child: u32, event: u64, start: &Start) -> Result<(), NoMemory>
        requires dead { IsNone (nth self.old child) }
        requires fresh { IsFresh self.old event }
        requires inside { All IsInside start.now.blocks }
        ensures follows { OnOk result
            (Follows self.old (begun child event (beginning_in start.now)) self.new) }
        ensures watches { OnOk result (SetsWatch child (Some fresh_watch) self.old self.new) }
        ensures err { OnErr result (self.new ≡ self.old) }
    {
        self.decoder.make_room()?;
        let space = window_of(self.alloc, start.blocks.as_slice())?;
        let key = self.memories.window_room()?;
        self.guests.make_room(child)?;
        self.memories.put_window(key, space);
        let guest = begin(Held { made: event, key }, start);
        self.guests.put(child as usize, guest);
        Ok(())
    }

    // What a process begins with that starts anew from an image file. The bytes of a range of its
    // addresses become its argument block; where they don't lie whole in one window, it is empty.
    fn first(&self, pid: u32, file: &[u8], at: u64, len: u64) -> Result<First, NoMemory>
        requires live { IsLive self.now pid }
        requires image { IsTrue (is_image file.now) }
        requires few { len ≤ MOST_BLOCK_BYTES }
        ensures cpu { IfOk result (λ first. IfSome (seen_in self.now pid) (λ v.
            first.cpu ≡ cpu_at_start (read_as_image file.now).entry (length (read v at len)))) }
        ensures space { IfOk result (λ first. IfSome (seen_in self.now pid) (λ v.
            first.space.bytes ≡ window_at_start (read_as_image file.now) (read v at len))) }
    {
        let guest = self.guests.at(pid as usize);
        let block = self.memories.block(self.alloc, guest, at, len)?;
        First::new(self.alloc, file, block.as_slice())
    }

    /// A process starts anew from an image file. The bytes of a range of its addresses become its
    /// argument block; where they don't lie whole in one window, it is empty.
    pub fn starts(
        &mut self,
        pid: u32,
        event: u64,
        file: &[u8],
        at: u64,
        len: u64,
    ) -> Result<(), NoMemory>
        requires live { IsLive self.old pid }
        requires fresh { IsFresh self.old event }
        requires image { IsTrue (is_image file.now) }
        requires few { len ≤ MOST_BLOCK_BYTES }
        ensures follows { OnOk result
            (Follows self.old (done pid event (Starts file.now at len)) self.new) }
        ensures watches { OnOk result
            (SetsWatch pid (option_map restarted (watch_in self.old pid)) self.old self.new) }
        ensures err { OnErr result (self.new ≡ self.old) }
    {
        let first = self.first(pid, file, at, len)?;
        let key = self.memories.add_window(first.space)?;
        let guest = self.guests.at_mut(pid as usize);
        let (window, segment) = (guest.window, guest.segment);
        guest.starts(first.cpu, Held { made: event, key });
        self.memories.release_window(self.guests.as_slice(), window);
        self.memories
            .release_segment(self.guests.as_slice(), segment);
        Ok(())
    }

    /// Process 1 begins from an image file, among no process.
    pub fn boots(&mut self, event: u64, file: &[u8]) -> Result<(), NoMemory>
        requires none { (p : ℕ) → IsNone (nth self.old p) }
        requires image { IsTrue (is_image file.now) }
        ensures follows { OnOk result (Follows self.old
            (λ b. done 1 event (Starts file.now 0 0) (put 1 (unborn event) b)) self.new) }
        ensures watches { OnOk result (SetsWatch 1 (Some fresh_watch) self.old self.new) }
        ensures err { OnErr result (self.new ≡ self.old) }
    {
        self.decoder.make_room()?;
        let first = First::new(self.alloc, file, &[])?;
        let key = self.memories.window_room()?;
        self.guests.make_room(1)?;
        self.memories.put_window(key, first.space);
        let guest = boot(Held { made: event, key }, first.cpu);
        self.guests.put(1, guest);
        Ok(())
    }

    /// How a child that a process now forked would begin, as a record holds it.
    pub fn start_of(&self, pid: u32) -> Result<Start, NoMemory>
        requires live { IsLive self.now pid }
        ensures start { IfOk result (λ start. IfSome (seen_in self.now pid) (λ v.
            start ≡ start_of (beginning_of v))) }
        ensures few { IfOk result (λ start. length start.blocks < 2 ^ 16) }
    {
        let guest = self.guests.at(pid as usize);
        let blocks = self.memories.window_blocks(guest.window)?;
        Ok(guest.start(blocks))
    }

    /// Takes the due signal away.
    pub fn drop_due(&mut self, pid: u32)
        requires live { IsLive self.old pid }
        ensures { IfSome (signals_in self.old pid) (λ s. Rewatches pid (λ w.
            record w { pending = without w.pending (due_signal s) }) self.old self.new) }
    {
        self.guests.at_mut(pid as usize).signals.drop_due()
    }

    /// Whether a process lives.
    pub fn is_live(&self, pid: u32) -> bool
        ensures { IsTrue result ↔ IsLive self.now pid }
    {
        self.guests.has(pid as usize)
    }

    /// Whether a process has registers that a handler's return restores.
    pub fn is_in_handler(&self, pid: u32) -> bool
        requires live { IsLive self.now pid }
        ensures { IfSome (seen_in self.now pid) (λ v. result ≡ is_some v.body.slot) }
    {
        self.guests.at(pid as usize).signals.slot().is_some()
    }

    /// Whether a process holds a segment.
    pub fn has_segment(&self, pid: u32) -> bool
        requires live { IsLive self.now pid }
        ensures { IfSome (seen_in self.now pid) (λ v. result ≡ is_some v.body.segment) }
    {
        self.guests.at(pid as usize).segment.is_some()
    }

    /// The event that made a process's private window.
    pub fn window(&self, pid: u32) -> u64
        requires live { IsLive self.now pid }
        ensures { IfSome (seen_in self.now pid) (λ v. result ≡ v.body.window) }
    {
        self.guests.at(pid as usize).window.made
    }

    /// The event that made the segment that a process holds, if it holds one.
    pub fn segment(&self, pid: u32) -> Option<u64>
        requires live { IsLive self.now pid }
        ensures { IfSome (seen_in self.now pid) (λ v. result ≡ v.body.segment) }
    {
        self.guests.at(pid as usize).segment_event()
    }

    /// The blocks that aren't all zero of the segment that a process holds, in order of number; none
    /// where it holds no segment.
    pub fn segment_blocks(&self, pid: u32) -> Result<Blocks, NoMemory>
        requires live { IsLive self.now pid }
        ensures { IfOk result (λ blocks. IfSome (seen_in self.now pid) (λ v.
            blocks ≡ blocks_of v.segment)) }
    {
        let guest = self.guests.at(pid as usize);
        self.memories.segment_blocks(self.alloc, guest)
    }

    /// The registers of a process.
    pub fn cpu(&self, pid: u32) -> &Cpu
        requires live { IsLive self.now pid }
        ensures { option_map (λ v. v.body.cpu) (seen_in self.now pid) ≡ Some result.now }
    {
        &self.guests.at(pid as usize).cpu
    }

    /// The signal that is delivered next.
    pub fn due(&self, pid: u32) -> Option<u8>
        requires live { IsLive self.now pid }
        ensures due { IfSome (signals_in self.now pid) (λ s. result ≡ due_signal s) }
        ensures signal { IfSome result (λ signal. IsTrue (is_signal signal)) }
    {
        self.guests.at(pid as usize).signals.due()
    }

    /// A signal's handler, 0 where it has none.
    pub fn handler(&self, pid: u32, signal: u8) -> u64
        requires live { IsLive self.now pid }
        requires signal { IsTrue (is_signal signal) }
        ensures { IfSome (watch_in self.now pid) (λ w. result ≡ handler_of w.handlers signal) }
    {
        self.guests.at(pid as usize).signals.handler(signal)
    }
}
