// Devices in slots.
ghost use Rattle.std.specs.Prelude.{◌≡◌, ◌≢◌, ◌+◌, ◌↔◌, ℕ, length, IsNone, IfSome, IsTrue, IsSome, min, option_map, ◌++◌};
ghost use Rattle.arn_base.specs.Device.{cut_to, left_after, takes};
ghost use Rattle.parts_model.specs.Numbered.{nth};
ghost use Rattle.guest_devices.specs.Answers.{read_answer, write_answer, IsWithin};
ghost use Rattle.guest_devices.specs.Slots.{answer_of, is_filled, taken_by, ReadsSlot, UnplugsSlot, WritesSlot};

use crate::{Answer, Answers, Plugs};
use arn_base::{Device, Reply, Took};

// Asks a device once. A count above the buffer's length is cut to it.
fn ask_device<D: Device>(device: &mut D, buf: &mut [u8]) -> Answer
    ensures reply { IfSome (D.replies device.old 0) (λ told.
        read_answer result buf.new ≡ answer_of (cut_to (length buf.old) told)) }
    ensures later { (k : ℕ) → D.replies device.new k ≡ D.replies device.old (k + 1) }
    ensures room { D.room device.new ≡ D.room device.old }
    ensures took { D.took device.new ≡ D.took device.old }
    ensures put_faults { (k : ℕ) → D.put_faults device.new k ≡ D.put_faults device.old k }
    ensures present { result ≢ Answer.Absent }
    ensures within { IsWithin result (length buf.old) }
{
    match device.ask(buf) {
        Reply::Gave(count) => Answer::Gave(fitting(count, buf.len())),
        Reply::Fault => Answer::Fault,
    }
}

// Hands bytes to a device once. A count above their number is cut to it.
fn put_device<D: Device>(device: &mut D, bytes: &[u8]) -> Answer
    ensures count { IfSome (D.room device.old) (λ room.
        length (taken_by (write_answer result) bytes.now) ≡ takes room (length bytes.now)) }
    ensures room { D.room device.new ≡
        option_map (λ room. left_after room (length (taken_by (write_answer result) bytes.now)))
        (D.room device.old) }
    ensures took { D.took device.new ≡
        option_map (λ had. had ++ taken_by (write_answer result) bytes.now) (D.took device.old) }
    ensures replies { (k : ℕ) → D.replies device.new k ≡ D.replies device.old k }
    ensures fault { IfSome (D.put_faults device.old 0) (λ told.
        IsTrue told ↔ (result ≡ Answer.Fault)) }
    ensures later { (k : ℕ) → D.put_faults device.new k ≡ D.put_faults device.old (k + 1) }
    ensures present { result ≢ Answer.Absent }
    ensures within { IsWithin result (length bytes.now) }
{
    match device.put(bytes) {
        Took::Count(count) => Answer::Gave(fitting(count, bytes.len())),
        Took::Fault => Answer::Fault,
    }
}

fn fitting(count: u32, len: usize) -> u32
    ensures { result ≡ min count len }
{
    (count as usize).min(len) as u32
}

/// Devices in slots that are lent for some calls. Slot `n` holds device `n`.
#[derive(Drop)]
pub struct Slots<'a, D: Device> {
    pub devices: &'a mut Vec<Option<D>>,
}

/// Boxed devices in slots.
pub type Live<'a> = Slots<'a, Box<dyn Device>>;

// Whether slot `n` holds a device.
fn is_filled<D: Device>(slots: &[Option<D>], n: usize) -> bool
    ensures { result ≡ is_filled slots.now n }
{
    match slots.get(n) {
        Some(slot) => slot.is_some(),
        None => false,
    }
}

// Asks the device in slot `n` once, if there is one.
fn ask_in<D: Device>(devices: &mut Vec<Option<D>>, n: usize, buf: &mut [u8]) -> Answer
    ensures asked { ReadsSlot D.replies D.room D.took D.put_faults n (length buf.old)
        (read_answer result buf.new) devices.old.items devices.new.items }
    ensures within { IsWithin result (length buf.old) }
{
    if n >= devices.len() {
        return Answer::Absent;
    }
    match &mut devices[n] {
        Some(device) => ask_device(device, buf),
        None => Answer::Absent,
    }
}

// Hands bytes to the device in slot `n` once, if there is one.
fn put_in<D: Device>(devices: &mut Vec<Option<D>>, n: usize, bytes: &[u8]) -> Answer
    ensures handed { WritesSlot D.replies D.room D.took D.put_faults n bytes.now
        (write_answer result) devices.old.items devices.new.items }
    ensures within { IsWithin result (length bytes.now) }
{
    if n >= devices.len() {
        return Answer::Absent;
    }
    match &mut devices[n] {
        Some(device) => put_device(device, bytes),
        None => Answer::Absent,
    }
}

impl<D: Device> Answers for Slots<'_, D> {
    ghost use Rattle.std.specs.Prelude.{◌≡◌};
    ghost use Rattle.guest_devices.specs.Slots.{SlotAnswers};

    ghost answers = { λ slots asked answer after.
        SlotAnswers D.replies D.room D.took D.put_faults asked answer slots.devices.now.items after.devices.now.items
        × (after.devices.ghost_name ≡ slots.devices.ghost_name) };

    fn here(&mut self, n: u64) -> bool {
        is_filled(self.devices.as_slice(), n as usize)
    }

    fn ask(&mut self, n: u64, buf: &mut [u8]) -> Answer {
        ask_in(self.devices, n as usize, buf)
    }

    fn put(&mut self, n: u64, bytes: &[u8]) -> Answer {
        put_in(self.devices, n as usize, bytes)
    }
}

impl<D: Device> Plugs for Slots<'_, D> {
    ghost use Rattle.std.specs.Prelude.{◌≡◌};
    ghost use Rattle.guest_devices.specs.Slots.{UnplugsSlot, is_filled};
    ghost use Rattle.guest_devices.specs.SlotLaws.{answers-filled, unplugs-filled};

    ghost unplugs = { λ n slots after.
        UnplugsSlot n slots.devices.now.items after.devices.now.items
        × (after.devices.ghost_name ≡ slots.devices.ghost_name) };

    ghost filled = { λ slots n. is_filled slots.devices.now.items n };

    ghost keeps = { λ old new asked answer h.
        answers-filled D.replies D.room D.took D.put_faults asked answer
        old.devices.now.items new.devices.now.items h.0 };

    ghost drops = { λ old new m h.
        unplugs-filled m old.devices.now.items new.devices.now.items h.0 };

    fn is_filled(&self, n: u32) -> bool {
        is_filled(self.devices.as_slice(), n as usize)
    }

    fn unplug(&mut self, n: u32) {
        unplug_in(self.devices, n);
    }
}

/// Drops the device in slot `n`. False comes exactly where there is none.
pub fn unplug_in<D: Device>(devices: &mut Vec<Option<D>>, n: u32) -> bool
    ensures there { IsTrue result ↔ IsSome (nth devices.old.items n) }
    ensures unplugged { UnplugsSlot n devices.old.items devices.new.items }
{
    match devices.get_mut(n as usize) {
        Some(slot) => slot.take().is_some(),
        None => false,
    }
}

/// `unplug_in` at boxed devices.
pub fn unplug(devices: &mut Vec<Option<Box<dyn Device>>>, n: u32) -> bool
    ensures there { IsTrue result ↔ IsSome (nth devices.old.items n) }
    ensures unplugged { UnplugsSlot n devices.old.items devices.new.items }
{
    unplug_in(devices, n)
}
