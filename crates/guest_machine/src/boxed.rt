// What a machine does with devices in slots.
use crate::errors::MachineError;
use crate::machine::Machine;
use arn_base::{Chooser, Device, NoMemory, Record, Steps};
use arn_model::turns_have_parts;
use guest_devices::Slots;
use guest_legs::Leg;
use std::sync::ledger::Ledger;

impl Machine {
    ghost use Rattle.std.specs.Prelude.{◌≡◌, ◌+◌, ◌*◌, ◌≤◌, ◌↔◌, ◌⊎◌, false, [], ◌∷◌, All, IfOk, IfErr, OnOk, OnErr, IsErrOf, IsTrue};
    ghost use Rattle.arn_model.specs.Run as input;
    ghost use Rattle.arn_model.specs.TransferCalls.{was_unplugged};
    ghost use Rattle.result_log.specs.Spelling.{HasSpelling};
    ghost use Rattle.guest_devices.specs.Slots.{UnplugsSlot, is_filled};
    ghost use Rattle.guest_legs.specs.Legs.{fresh};
    ghost use Rattle.guest_legs.specs.declared.leg.TheConstants.{MOST_LEG};
    ghost use Rattle.guest_machine.specs.InSlots.{CutLegInSlots, LegInSlots};
    ghost use Rattle.guest_machine.specs.Recorded.{HasRoom, OfEach, Runs, has_process};

    // `unplug_from` at slots.
    fn unplug_in_slots<V: Device>(
        &mut self,
        device: u32,
        slots: &mut Slots<'_, V>,
        out: &mut Vec<Record>,
    ) -> Result<u64, MachineError>
        requires room { HasRoom self.old 1 0 }

        ensures event { IfOk result (λ event. event ≡ self.old.kernel.events) }
        ensures next { OnOk result (self.new.kernel.events ≡ self.old.kernel.events + 1) }
        ensures runs { OnOk result (OfEach self.old.kernel (λ m.
            Runs m (input.Unplug device ∷ []) self.old self.new out.old.items out.new.items)) }
        ensures spelled { OnOk result
            (All HasSpelling out.old.items → All HasSpelling out.new.items) }
        ensures unplugged { OnOk result
            (UnplugsSlot device slots.old.devices.now.items slots.new.devices.now.items) }

        ensures not_booted { IsErrOf result MachineError.NotBooted ↔
            (has_process self.old.kernel ≡ false) }
        ensures no_device { IsErrOf result MachineError.NoDevice ↔
            (IsTrue (has_process self.old.kernel) ×
            ((is_filled slots.old.devices.now.items device ≡ false) ⊎
            IsTrue (was_unplugged self.old.kernel.kernel device))) }
        ensures only { IfErr result (λ e. (e ≡ MachineError.NotBooted) ⊎
            (e ≡ MachineError.NoDevice) ⊎ (e ≡ MachineError.NoMemory)) }
        ensures err { OnErr result (self.new ≡ self.old) }
        ensures unrecorded { OnErr result (out.new.items ≡ out.old.items) }
        ensures unasked { OnErr result (slots.new.devices.now ≡ slots.old.devices.now) }
        ensures slots { slots.new.devices.ghost_name ≡ slots.old.devices.ghost_name }
    {
        self.unplug_from(device, slots, out)
    }

    /// `unplug_from` at boxed devices in slots.
    pub fn unplug(
        &mut self,
        device: u32,
        devices: &mut Vec<Option<Box<dyn Device>>>,
        out: &mut Vec<Record>,
    ) -> Result<u64, MachineError>
        requires room { HasRoom self.old 1 0 }

        ensures event { IfOk result (λ event. event ≡ self.old.kernel.events) }
        ensures next { OnOk result (self.new.kernel.events ≡ self.old.kernel.events + 1) }
        ensures runs { OnOk result (OfEach self.old.kernel (λ m.
            Runs m (input.Unplug device ∷ []) self.old self.new out.old.items out.new.items)) }
        ensures spelled { OnOk result
            (All HasSpelling out.old.items → All HasSpelling out.new.items) }
        ensures unplugged { OnOk result (UnplugsSlot device devices.old.items devices.new.items) }

        ensures not_booted { IsErrOf result MachineError.NotBooted ↔
            (has_process self.old.kernel ≡ false) }
        ensures no_device { IsErrOf result MachineError.NoDevice ↔
            (IsTrue (has_process self.old.kernel) ×
            ((is_filled devices.old.items device ≡ false) ⊎
            IsTrue (was_unplugged self.old.kernel.kernel device))) }
        ensures only { IfErr result (λ e. (e ≡ MachineError.NotBooted) ⊎
            (e ≡ MachineError.NoDevice) ⊎ (e ≡ MachineError.NoMemory)) }
        ensures err { OnErr result (self.new ≡ self.old) }
        ensures unrecorded { OnErr result (out.new.items ≡ out.old.items) }
        ensures unasked { OnErr result (devices.new ≡ devices.old) }
    {
        self.unplug_in_slots(device, &mut Slots { devices }, out)
    }

    // `run_leg_from` at slots: what their devices gave and took is what the records say.
    fn run_leg_in_slots<C: Chooser, V: Device, L: Ledger>(
        &mut self,
        budget: u64,
        chooser: &mut C,
        slots: &mut Slots<'_, V>,
        out: &mut Vec<Record>,
        steps: &mut Steps<L>,
    ) -> Result<Leg, NoMemory>
        requires room { HasRoom self.old (2 * MOST_LEG) budget }

        ensures leg { IfOk result (λ leg. OfEach self.old.kernel (λ m.
            LegInSlots V.Device (fresh m budget) self.old self.new
            (C.choices chooser.old) (C.choices chooser.new)
            slots.old.devices.now.items slots.new.devices.now.items
            out.old.items out.new.items steps.old steps.new leg)) }
        ensures count { IfOk result (λ leg.
            self.new.instructions ≡ self.old.instructions + leg.ran) }
        ensures within { IfOk result (λ leg. leg.ran ≤ budget) }
        ensures cut { OnErr result (OfEach self.old.kernel (λ m.
            CutLegInSlots V.Device (fresh m budget) self.old self.new
            (C.choices chooser.old) (C.choices chooser.new)
            slots.old.devices.now.items slots.new.devices.now.items
            out.old.items out.new.items steps.old steps.new)) }
        ensures spelled { All HasSpelling out.old.items → All HasSpelling out.new.items }
        ensures slots { slots.new.devices.ghost_name ≡ slots.old.devices.ghost_name }
    {
        turns_have_parts();
        self.is_real();
        self.run_leg_from(budget, chooser, slots, out, steps)
    }

    /// `run_leg_from` at a boxed chooser and boxed devices in slots. What the devices gave and took
    /// is what the records say.
    pub fn run_leg<L: Ledger>(
        &mut self,
        budget: u64,
        chooser: &mut Box<dyn Chooser>,
        devices: &mut Vec<Option<Box<dyn Device>>>,
        out: &mut Vec<Record>,
        steps: &mut Steps<L>,
    ) -> Result<Leg, NoMemory>
        requires room { HasRoom self.old (2 * MOST_LEG) budget }

        ensures leg { IfOk result (λ leg. OfEach self.old.kernel (λ m.
            LegInSlots ⟦<Box<dyn Device> as Device>⟧ (fresh m budget) self.old self.new
            (⟦<Box<dyn Chooser> as Chooser>⟧.choices chooser.old)
            (⟦<Box<dyn Chooser> as Chooser>⟧.choices chooser.new)
            devices.old.items devices.new.items
            out.old.items out.new.items steps.old steps.new leg)) }
        ensures count { IfOk result (λ leg.
            self.new.instructions ≡ self.old.instructions + leg.ran) }
        ensures within { IfOk result (λ leg. leg.ran ≤ budget) }
        ensures cut { OnErr result (OfEach self.old.kernel (λ m.
            CutLegInSlots ⟦<Box<dyn Device> as Device>⟧ (fresh m budget) self.old self.new
            (⟦<Box<dyn Chooser> as Chooser>⟧.choices chooser.old)
            (⟦<Box<dyn Chooser> as Chooser>⟧.choices chooser.new)
            devices.old.items devices.new.items
            out.old.items out.new.items steps.old steps.new)) }
        ensures spelled { All HasSpelling out.old.items → All HasSpelling out.new.items }
    {
        self.run_leg_in_slots(budget, chooser, &mut Slots { devices }, out, steps)
    }
}
