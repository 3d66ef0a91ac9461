// Answers that were recorded.
ghost use Rattle.std.specs.Prelude.{◌≡◌, length};
ghost use Rattle.arn_base.specs.Device.{countable};
ghost use Rattle.parts_model.specs.Replies.{is_here, to_read, to_write};
ghost use Rattle.guest_devices.specs.Answers.{read_answer, write_answer, IsWithin};
ghost use Rattle.guest_devices.specs.Told.{as_read, as_written, reply_of};

use crate::copies::{copy_front, counted};
use crate::{Answer, Answers};
use arn_base::{Extra, Record};
use parts_model::calls::DEVICE;

/// Answers what the recorded call says, and calls no device. Without a record no device is there.
#[derive(Drop)]
pub struct Told<'a> {
    pub entry: Option<&'a Record>,
}

impl Answers for Told<'_> {
    ghost use Rattle.std.specs.Prelude.{◌≡◌};
    ghost use Rattle.guest_devices.specs.Told.{reply_of, told_answer};

    ghost answers = { λ told asked answer after.
        (answer ≡ told_answer (reply_of told.entry) asked) × (after ≡ told) };

    fn here(&mut self, _n: u64) -> bool {
        is_here(self.entry)
    }

    fn ask(&mut self, _n: u64, buf: &mut [u8]) -> Answer {
        read(self.entry, buf)
    }

    fn put(&mut self, _n: u64, bytes: &[u8]) -> Answer {
        write(self.entry, bytes)
    }
}

// Whether the record says that there is a device.
fn is_here(call: Option<&Record>) -> bool
    ensures { result ≡ is_here (reply_of call.entry) }
{
    match call {
        Some(
            Record::Call {
                number,
                result,
                extra: Extra::Nothing,
                ..
            },
        ) => *number == DEVICE && *result < 1 << 63,
        _ => false,
    }
}

// What the record says that the device gave.
fn read(call: Option<&Record>, buf: &mut [u8]) -> Answer
    ensures answer { read_answer result buf.new ≡
        as_read (to_read (countable (length buf.old)) (reply_of call.entry)) }
    ensures within { IsWithin result (length buf.old) }
{
    match call {
        Some(Record::Call { extra, .. }) => match extra {
            Extra::Reply { bytes, .. } => Answer::Gave(copy_front(bytes.as_slice(), buf)),
            Extra::Fault => Answer::Fault,
            _ => Answer::Absent,
        },
        _ => Answer::Absent,
    }
}

// What the record says that the device took.
fn write(call: Option<&Record>, bytes: &[u8]) -> Answer
    ensures answer { write_answer result ≡
        as_written (to_write (countable (length bytes.now)) (reply_of call.entry)) }
    ensures within { IsWithin result (length bytes.now) }
{
    match call {
        Some(Record::Call { extra, .. }) => match extra {
            Extra::Sent { bytes: sent, .. } => Answer::Gave(counted(sent.len(), bytes.len())),
            Extra::Fault => Answer::Fault,
            _ => Answer::Absent,
        },
        _ => Answer::Absent,
    }
}
