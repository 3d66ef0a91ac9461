ghost use Rattle.std.specs.Prelude.{◌≡◌, IfOk};
ghost use Rattle.arn_base.specs.declared.records.Record.TheVariants as kind;

use crate::able::{Able, can_go_on, pick_slice, run_state, scan};
use crate::errors::MachineError;
use crate::given::push_after;
use crate::turn::{Taken, take_turn};
use arn_base::{Bytes, Chooser, NoMemory, Record, Steps};
use arn_model::{RunState, turns_have_parts};
use guest_calls::Kernel;
use guest_devices::Answers;
use guest_legs::{Pick, SLICE_RECORDS};
use log_model::slices_take_steps;
use parts_model::limits::MOST_SLICE;
use std::alloc::Global;
use std::marker::Model;
use std::sync::ledger::Ledger;

// The record of a boot file.
fn file_entry(alloc: Global, name: &[u8], bytes: &[u8]) -> Result<Record, NoMemory>
    ensures { IfOk result (λ entry. entry ≡ kind.File name.now bytes.now) }
{
    let name = Bytes::from_slice(alloc, name)?;
    let bytes = Bytes::from_slice(alloc, bytes)?;
    Ok(Record::File { name, bytes })
}

/// A machine, and how many instructions it has run.
#[derive(Drop)]
pub struct Machine {
    alloc: Global,
    kernel: Kernel,
    instructions: u128,
}

impl Model for Machine {
    ghost use Rattle.guest_machine.specs.Recorded.{IsReal, Recorded};

    ghost Value = { Recorded };

    ghost use Rattle.guest_machine.specs.View.{recorded_of};

    ghost view = { recorded_of };

    ghost invariant = { λ m. IsReal m.kernel };
}

impl Machine {
    ghost use Rattle.std.specs.Prelude.{◌≡◌, ◌≢◌, ℕ, ◌+◌, ◌<◌, ◌≤◌, ◌^◌, ◌↔◌, ◌⊎◌, false, [], ◌∷◌, length, All, IfOk, IfErr, IfSome, OnOk, OnErr, IsErrOf, IsNone, IsTrue, Err};
    ghost use Rattle.parts_model.specs.Files.{find_file, is_name};
    ghost use Rattle.parts_model.specs.declared.limits.TheConstants.{MOST_FILE_BYTES};
    ghost use Rattle.arn_model.specs.Run.{is_free};
    ghost use Rattle.arn_model.specs.Run as input;
    ghost use Rattle.arn_model.specs.TransferCalls.{was_unplugged};
    ghost use Rattle.arn_model.specs.Turn.{is_possible, is_runnable, run_state as run_state_of, runnable};
    ghost use Rattle.result_log.specs.Spelling.{HasSpelling};
    ghost use Rattle.guest_bodies.specs.Shown.{IsLive};
    ghost use Rattle.guest_calls.specs.Starts.{HasNoImage};
    ghost use Rattle.guest_legs.specs.Legs.{brought, ask};
    ghost use Rattle.guest_legs.specs.Pieces.{spelled_len};
    ghost use Rattle.guest_machine.specs.Able.{AreAble};
    ghost use Rattle.guest_machine.specs.Recorded.{HasRoom, IsReal, OfEach, Runs, has_process, recorded_first};
    ghost use Rattle.guest_machine.specs.Slices.{CanTake, IsCut, RanSlice};

    /// The machine before anything has come from outside.
    pub fn new(alloc: Global) -> Machine
        ensures { result ≡ recorded_first }
    {
        Machine {
            alloc,
            kernel: Kernel::new(alloc),
            instructions: 0,
        }
    }

    /// Whether a process has been made.
    pub fn is_booted(&self) -> bool
        ensures { result ≡ has_process self.now.kernel }
    {
        self.kernel.is_booted()
    }

    /// How many events there have been.
    pub fn events(&self) -> u64
        ensures { result ≡ self.now.kernel.events }
    {
        self.kernel.events()
    }

    /// How many instructions have run.
    pub fn instructions(&self) -> u128
        ensures { result ≡ self.now.instructions }
    {
        self.instructions
    }

    /// How the machine stands before a slice.
    pub fn run_state(&self) -> RunState
        ensures { OfEach self.now.kernel (λ m. result ≡ run_state_of m) }
    {
        let able = self.scan();
        self.standing(&able)
    }

    /// Whether a process can go on. Then a slice of it is possible.
    pub fn can_go_on(&self, pid: u32) -> bool
        ensures runnable { OfEach self.now.kernel (λ m. result ≡ is_runnable m pid) }
        ensures possible { IsTrue result → (count : ℕ) → 0 < count → count ≤ MOST_SLICE →
            OfEach self.now.kernel (λ m. IsTrue (is_possible m pid count)) }
    {
        can_go_on(&self.kernel, pid)
    }

    /// Adds a boot file. Answers the number of its event; its record goes behind `out`. Where memory
    /// runs out, this may be said of a name that isn't free.
    pub fn add_file(
        &mut self,
        name: &[u8],
        bytes: &[u8],
        out: &mut Vec<Record>,
    ) -> Result<u64, MachineError>
        requires name { IsTrue (is_name name.now) }
        requires bytes { length bytes.now ≤ MOST_FILE_BYTES }
        requires room { HasRoom self.old 1 0 }

        ensures event { IfOk result (λ event. event ≡ self.old.kernel.events) }
        ensures next { OnOk result (self.new.kernel.events ≡ self.old.kernel.events + 1) }
        ensures free { OnOk result (IsTrue (is_free self.old.kernel.kernel.files name.now)) }
        ensures runs { OnOk result (OfEach self.old.kernel (λ m.
            Runs m (input.File name.now bytes.now ∷ []) self.old self.new out.old.items out.new.items)) }
        ensures spelled { OnOk result
            (All HasSpelling out.old.items → All HasSpelling out.new.items) }

        ensures booted { IsErrOf result MachineError.Booted ↔ IsTrue (has_process self.old.kernel) }
        ensures no_name { IsErrOf result MachineError.NoName →
            is_free self.old.kernel.kernel.files name.now ≡ false }
        ensures only { IfErr result (λ e. (e ≡ MachineError.Booted) ⊎
            (e ≡ MachineError.NoName) ⊎ (e ≡ MachineError.NoMemory)) }
        ensures err { OnErr result (self.new ≡ self.old) }
        ensures unrecorded { OnErr result (out.new.items ≡ out.old.items) }
    {
        if self.is_booted() {
            return Err(MachineError::Booted);
        }
        out.reserve(1)?;
        let entry = file_entry(self.alloc, name, bytes)?;
        let event = self.kernel.events();
        let added = self.kernel.add_file(name, bytes, event);
        push_after(out, entry, added)?;
        Ok(event)
    }

    /// Boots process 1 from the image in a file. Answers the number of its event; its record goes
    /// behind `out`. Where memory runs out, this may be said of a file that isn't there or no image.
    pub fn boot(&mut self, name: &[u8], out: &mut Vec<Record>) -> Result<u64, MachineError>
        requires name { IsTrue (is_name name.now) }
        requires room { HasRoom self.old 1 0 }

        ensures event { IfOk result (λ event. event ≡ self.old.kernel.events) }
        ensures next { OnOk result (self.new.kernel.events ≡ self.old.kernel.events + 1) }
        ensures runs { OnOk result (OfEach self.old.kernel (λ m.
            Runs m (input.Boot name.now ∷ []) self.old self.new out.old.items out.new.items)) }
        ensures spelled { OnOk result
            (All HasSpelling out.old.items → All HasSpelling out.new.items) }

        ensures booted { IsErrOf result MachineError.Booted ↔ IsTrue (has_process self.old.kernel) }
        ensures no_name { IsErrOf result MachineError.NoName →
            IsNone (find_file self.old.kernel.kernel.files name.now) }
        ensures not_image { IsErrOf result MachineError.NotImage →
            HasNoImage name.now self.old.kernel }
        ensures only { IfErr result (λ e.
            (e ≢ MachineError.NotBooted) × (e ≢ MachineError.NoDevice)) }
        ensures err { OnErr result (self.new ≡ self.old) }
        ensures unrecorded { OnErr result (out.new.items ≡ out.old.items) }
    {
        if self.is_booted() {
            return Err(MachineError::Booted);
        }
        out.reserve(1)?;
        let held = Bytes::from_slice(self.alloc, name)?;
        let event = self.kernel.events();
        let give = self.kernel.boot(name)?;
        out.push_reserved(Record::Boot { name: held, give });
        Ok(event)
    }

    /// Puts bytes behind the console's queue. Answers the number of its event; its record goes
    /// behind `out`.
    pub fn type_in(&mut self, bytes: &[u8], out: &mut Vec<Record>) -> Result<u64, MachineError>
        requires bytes { length bytes.now < 2 ^ 32 }
        requires room { HasRoom self.old 1 0 }

        ensures event { IfOk result (λ event. event ≡ self.old.kernel.events) }
        ensures next { OnOk result (self.new.kernel.events ≡ self.old.kernel.events + 1) }
        ensures runs { OnOk result (OfEach self.old.kernel (λ m.
            Runs m (input.Typed bytes.now ∷ []) self.old self.new out.old.items out.new.items)) }
        ensures spelled { OnOk result
            (All HasSpelling out.old.items → All HasSpelling out.new.items) }

        ensures not_booted { IsErrOf result MachineError.NotBooted ↔
            (has_process self.old.kernel ≡ false) }
        ensures only { IfErr result (λ e.
            (e ≡ MachineError.NotBooted) ⊎ (e ≡ MachineError.NoMemory)) }
        ensures err { OnErr result (self.new ≡ self.old) }
        ensures unrecorded { OnErr result (out.new.items ≡ out.old.items) }
    {
        if !self.is_booted() {
            return Err(MachineError::NotBooted);
        }
        out.reserve(1)?;
        let held = Bytes::from_slice(self.alloc, bytes)?;
        let event = self.kernel.events();
        let typed = self.kernel.type_in(bytes, event);
        push_after(out, Record::Typed { bytes: held }, typed)?;
        Ok(event)
    }

    /// Runs a slice of a process and answers how many instructions ran; its records go behind `out`.
    /// Where memory runs out, what ran of it is recorded.
    pub fn run_slice<A: Answers, L: Ledger>(
        &mut self,
        pid: u32,
        count: u32,
        answers: &mut A,
        out: &mut Vec<Record>,
        steps: &mut Steps<L>,
    ) -> Result<u32, NoMemory>
        requires possible { OfEach self.old.kernel (λ m. IsTrue (is_possible m pid count)) }
        requires room { HasRoom self.old 2 count }

        ensures ran { OnOk result (OfEach self.old.kernel (λ m.
            RanSlice A.answers m pid count answers.old answers.new
            self.old self.new out.old.items out.new.items)) }
        ensures count { IfOk result (λ ran.
            self.new.instructions ≡ self.old.instructions + ran) }
        ensures within { IfOk result (λ ran. ran ≤ count) }
        ensures events { self.new.kernel.events ≤ self.old.kernel.events + 2 }
        ensures spelled { All HasSpelling out.old.items → All HasSpelling out.new.items }

        ensures cut { OnErr result (OfEach self.old.kernel (λ m.
            IsCut m pid count self.old self.new out.old.items out.new.items)) }
        ensures unasked { OnErr result (answers.new ≡ answers.old) }
        ensures steps { steps.new + self.old.instructions ≤
            steps.old + self.new.instructions + 1 }
        ensures at_most { steps.new ≤ steps.old + count }
    {
        match self.take_slice(pid, count, answers, out, steps) {
            Ok(taken) => Ok(taken.ran),
            Err(NoMemory) => Err(NoMemory),
        }
    }

    // A machine stands for one of the definitions.
    pub(crate) fn is_real(&self)
        ensures { IsReal self.now.kernel }
    {
        let _ = &self.kernel;
    }

    // Unplugs the device of this number, wherever it is.
    pub(crate) fn unplug_number(
        &mut self,
        device: u32,
        out: &mut Vec<Record>,
    ) -> Result<u64, MachineError>
        requires room { HasRoom self.old 1 0 }

        ensures event { IfOk result (λ event. event ≡ self.old.kernel.events) }
        ensures next { OnOk result (self.new.kernel.events ≡ self.old.kernel.events + 1) }
        ensures runs { OnOk result (OfEach self.old.kernel (λ m.
            Runs m (input.Unplug device ∷ []) self.old self.new out.old.items out.new.items)) }
        ensures spelled { OnOk result
            (All HasSpelling out.old.items → All HasSpelling out.new.items) }

        ensures not_booted { IsErrOf result MachineError.NotBooted ↔
            (has_process self.old.kernel ≡ false) }
        ensures no_device { IsErrOf result MachineError.NoDevice ↔
            (IsTrue (has_process self.old.kernel) ×
            IsTrue (was_unplugged self.old.kernel.kernel device)) }
        ensures only { IfErr result (λ e. (e ≡ MachineError.NotBooted) ⊎
            (e ≡ MachineError.NoDevice) ⊎ (e ≡ MachineError.NoMemory)) }
        ensures err { OnErr result (self.new ≡ self.old) }
        ensures unrecorded { OnErr result (out.new.items ≡ out.old.items) }
    {
        if !self.is_booted() {
            return Err(MachineError::NotBooted);
        }
        if self.kernel.was_unplugged(device) {
            return Err(MachineError::NoDevice);
        }
        out.reserve(1)?;
        let event = self.kernel.events();
        // It wasn't unplugged before, so this adds it.
        self.kernel.unplug(device)?;
        out.push_reserved(Record::Unplug { device });
        Ok(event)
    }

    // Whether a slice may be taken. One of no instruction that delivers no signal does nothing.
    pub(crate) fn can_take(&self, pid: u32, count: u32) -> bool
        ensures live { IsTrue result → IsLive self.now.kernel.guests pid }
        ensures can { IsTrue result → OfEach self.now.kernel (λ m. CanTake m pid count) }
        ensures most { IsTrue result → count ≤ MOST_SLICE }
        ensures impossible { result ≡ false →
            OfEach self.now.kernel (λ m. is_possible m pid count ≡ false) }
    {
        if count == 0 {
            self.kernel.is_live(pid)
        } else {
            u64::from(count) <= MOST_SLICE && can_go_on(&self.kernel, pid)
        }
    }

    // The processes that can go on. Each that lives is asked once.
    pub(crate) fn scan(&self) -> Able
        ensures { OfEach self.now.kernel (λ m. AreAble m result) }
    {
        scan(&self.kernel)
    }

    // How the machine stands before a slice, where these processes can go on.
    pub(crate) fn standing(&self, able: &Able) -> RunState
        requires able { OfEach self.now.kernel (λ m. AreAble m able.now) }
        ensures { OfEach self.now.kernel (λ m. result ≡ run_state_of m) }
    {
        run_state(&self.kernel, able)
    }

    // The slice that a chooser picks, where these processes can go on and so many instructions are left.
    pub(crate) fn pick_slice<C: Chooser>(&self, able: &Able, left: u64, chooser: &mut C) -> Pick
        requires able { OfEach self.now.kernel (λ m. AreAble m able.now) }
        requires can { OfEach self.now.kernel (λ m. RunState.CanGoOn ≡ run_state_of m) }
        requires left { 0 < left }
        ensures picked { OfEach self.now.kernel (λ m. IfSome (C.choices chooser.old 0) (λ choice.
            result ≡ brought (ask m left) choice)) }
        ensures later { (k : ℕ) → C.choices chooser.new k ≡ C.choices chooser.old (k + 1) }
        ensures possible { OfEach self.now.kernel (λ m.
            IsTrue (is_possible m result.pid result.count)) }
        ensures some { 0 < result.count }
        ensures within { result.count ≤ left }
    {
        pick_slice(&self.kernel, able, left, chooser)
    }

    // Runs a slice as `run_slice` does, perhaps of nothing, and also tells how many bytes its records
    // are spelled by.
    pub(crate) fn take_slice<A: Answers, L: Ledger>(
        &mut self,
        pid: u32,
        count: u32,
        answers: &mut A,
        out: &mut Vec<Record>,
        steps: &mut Steps<L>,
    ) -> Result<Taken, NoMemory>
        requires can { OfEach self.old.kernel (λ m. CanTake m pid count) }
        requires room { HasRoom self.old 2 count }

        ensures ran { OnOk result (OfEach self.old.kernel (λ m.
            RanSlice A.answers m pid count answers.old answers.new
            self.old self.new out.old.items out.new.items)) }
        ensures count { IfOk result (λ taken.
            self.new.instructions ≡ self.old.instructions + taken.ran) }
        ensures within { IfOk result (λ taken. taken.ran ≤ count) }
        ensures len { IfOk result (λ taken.
            spelled_len out.new.items ≡ spelled_len out.old.items + taken.len) }
        ensures few { IfOk result (λ taken. taken.len < 2 ^ 39) }
        ensures some { IfOk result (λ taken.
            OfEach self.old.kernel (λ m. IsTrue (is_possible m pid count)) → 0 < count →
            0 < taken.len) }
        ensures events { self.new.kernel.events ≤ self.old.kernel.events + 2 }
        ensures spelled { All HasSpelling out.old.items → All HasSpelling out.new.items }

        ensures cut { OnErr result (OfEach self.old.kernel (λ m.
            IsCut m pid count self.old self.new out.old.items out.new.items)) }
        ensures unasked { OnErr result (answers.new ≡ answers.old) }
        ensures steps { steps.new + self.old.instructions ≤
            steps.old + self.new.instructions + 1 }
        ensures at_most { steps.new ≤ steps.old + count }
    {
        turns_have_parts();
        slices_take_steps();
        out.reserve(SLICE_RECORDS)?;
        let taken = take_turn(&mut self.kernel, pid, count, answers, out, steps);
        self.instructions += u128::from(taken.ran);
        if taken.cut {
            return Err(NoMemory);
        }
        Ok(taken)
    }
}
