// Devices that are unplugged.
use crate::errors::MachineError;
use crate::machine::Machine;
use arn_base::Record;
use guest_devices::Plugs;

impl Machine {
    ghost use Rattle.std.specs.Prelude.{◌≡◌, ◌+◌, ◌↔◌, ◌⊎◌, false, [], ◌∷◌, All, IfOk, IfErr, OnOk, OnErr, IsErrOf, IsTrue};
    ghost use Rattle.arn_model.specs.Run as input;
    ghost use Rattle.arn_model.specs.TransferCalls.{was_unplugged};
    ghost use Rattle.result_log.specs.Spelling.{HasSpelling};
    ghost use Rattle.guest_machine.specs.Recorded.{HasRoom, OfEach, Runs, has_process};

    /// Unplugs a device, and drops the one of this number. Answers the number of its event; its
    /// record goes behind `out`.
    pub fn unplug_from<P: Plugs>(
        &mut self,
        device: u32,
        plugs: &mut P,
        out: &mut Vec<Record>,
    ) -> Result<u64, MachineError>
        requires room { HasRoom self.old 1 0 }

        ensures event { IfOk result (λ event. event ≡ self.old.kernel.events) }
        ensures next { OnOk result (self.new.kernel.events ≡ self.old.kernel.events + 1) }
        ensures runs { OnOk result (OfEach self.old.kernel (λ m.
            Runs m (input.Unplug device ∷ []) self.old self.new out.old.items out.new.items)) }
        ensures spelled { OnOk result
            (All HasSpelling out.old.items → All HasSpelling out.new.items) }
        ensures unplugged { OnOk result (P.unplugs device plugs.old plugs.new) }

        ensures not_booted { IsErrOf result MachineError.NotBooted ↔
            (has_process self.old.kernel ≡ false) }
        ensures no_device { IsErrOf result MachineError.NoDevice ↔
            (IsTrue (has_process self.old.kernel) × ((P.filled plugs.old device ≡ false) ⊎
            IsTrue (was_unplugged self.old.kernel.kernel device))) }
        ensures only { IfErr result (λ e. (e ≡ MachineError.NotBooted) ⊎
            (e ≡ MachineError.NoDevice) ⊎ (e ≡ MachineError.NoMemory)) }
        ensures err { OnErr result (self.new ≡ self.old) }
        ensures unrecorded { OnErr result (out.new.items ≡ out.old.items) }
        ensures unasked { OnErr result (plugs.new ≡ plugs.old) }
    {
        if !self.is_booted() {
            return Err(MachineError::NotBooted);
        }
        if !plugs.is_filled(device) {
            return Err(MachineError::NoDevice);
        }
        match self.unplug_number(device, out) {
            Ok(event) => {
                plugs.unplug(device);
                Ok(event)
            }
            Err(error) => Err(error),
        }
    }
}
