// What one record tells by itself.
ghost use Rattle.std.specs.Prelude.{◌≡◌, option_map};
ghost use Rattle.acts_model.specs.Records as records;
ghost use Rattle.acts_model.specs.Seen.{child_seen, life_seen};
ghost use Rattle.parts_model.specs.Replies as replies;

use arn_base::{Extra, Give, Record, Start};
use parts_model::calls::{EXIT, FORK, WRITE};
use parts_model::limits::MOST_TRANSFER;

/// Whether a call's result is no error.
pub fn is_success(answer: u64) -> bool
    ensures { result ≡ replies.is_success answer }
{
    answer < 1 << 63
}

/// Whether a record is an event.
pub fn is_event(entry: &Record) -> bool
    ensures { result ≡ records.is_event entry.now }
{
    match entry {
        Record::Slice { .. } => false,
        Record::File { .. }
        | Record::Boot { .. }
        | Record::Typed { .. }
        | Record::Unplug { .. }
        | Record::Signal { .. }
        | Record::Call { .. }
        | Record::End { .. } => true,
    }
}

/// The process of a record, if it has one.
pub fn process_of(entry: &Record) -> Option<u32>
    ensures { result ≡ records.process_of entry.now }
{
    match entry {
        Record::File { .. } | Record::Typed { .. } | Record::Unplug { .. } => None,
        Record::Boot { .. } => Some(1),
        Record::Slice { pid, .. }
        | Record::Signal { pid, .. }
        | Record::Call { pid, .. }
        | Record::End { pid, .. } => Some(*pid),
    }
}

/// How many bytes an event has.
pub fn event_len(entry: &Record) -> u64
    ensures { result ≡ records.event_len entry.now }
{
    match entry {
        Record::File { bytes, .. } | Record::Typed { bytes } => bytes.len() as u64,
        Record::Boot { give, .. } => give.bytes.len() as u64,
        Record::Unplug { .. } | Record::Slice { .. } => 0,
        Record::Signal { handler, .. } => (*handler == 0).into(),
        Record::Call {
            number,
            result,
            extra,
            ..
        } => { held_len(extra).unwrap_or(plain_len(*number, *result, extra)) }
        Record::End { .. } => 1,
    }
}

fn held_len(extra: &Extra) -> Option<u64>
    ensures { result ≡ records.held_len extra.now }
{
    match extra {
        Extra::Give(give) => Some(give.bytes.len() as u64),
        Extra::Put { bytes, .. }
        | Extra::Console { bytes }
        | Extra::Reply { bytes, .. }
        | Extra::Sent { bytes, .. } => Some(bytes.len() as u64),
        Extra::Nothing | Extra::Start(_) | Extra::Fault | Extra::Absent | Extra::Name { .. } =>
            None,
    }
}

fn plain_len(number: u64, answer: u64, extra: &Extra) -> u64
    ensures { result ≡ records.plain_len number answer extra.now }
{
    match extra {
        Extra::Nothing if number == WRITE && answer <= MOST_TRANSFER => answer,
        _ => (number == EXIT).into(),
    }
}

/// What a record tells of a child.
#[derive(Clone, Copy)]
pub struct ChildTold<'a> {
    pub number: u64,
    /// How it begins, where it starts a group. Else it joins its maker's group.
    pub start: Option<&'a Start>,
}

/// How a child begins, if what a call did holds it.
pub fn start_held(extra: &Extra) -> Option<&Start>
    ensures { option_map (λ start. start.now) result ≡ records.start_held extra.now }
{
    match extra {
        Extra::Start(start) => Some(start.get()),
        _ => None,
    }
}

/// The child that a call makes, if it makes one.
pub fn child_called(number: u64, answer: u64, extra: &Extra) -> Option<ChildTold<'_>>
    ensures { option_map child_seen result ≡ records.child_called number answer extra.now }
{
    if number == FORK && is_success(answer) {
        Some(ChildTold {
            number: answer,
            start: start_held(extra),
        })
    } else {
        None
    }
}

/// The child that a record tells of, if it makes one.
pub fn child_told(entry: &Record) -> Option<ChildTold<'_>>
    ensures { option_map child_seen result ≡ records.child_told entry.now }
{
    match entry {
        Record::Call {
            number,
            result,
            extra,
            ..
        } => child_called(*number, *result, extra),
        _ => None,
    }
}

/// A process begins, or it ends.
#[derive(Clone, Copy)]
pub enum LifeTold {
    Begins(u64),
    Ends(u32),
    NoLife,
}

fn child_life(child: Option<ChildTold<'_>>) -> LifeTold
    ensures { life_seen result ≡ records.child_life (option_map child_seen child.entry) }
{
    match child {
        Some(child) => LifeTold::Begins(child.number),
        None => LifeTold::NoLife,
    }
}

/// Which process begins or ends at a record, if one does.
pub fn life_told(entry: &Record) -> LifeTold
    ensures { life_seen result ≡ records.life_told entry.now }
{
    match entry {
        Record::Boot { .. } => LifeTold::Begins(1),
        Record::Signal {
            pid,
            handler: 0,
            ..
        }
        | Record::End { pid, .. } => LifeTold::Ends(*pid),
        Record::Call { pid, number, .. } if *number == EXIT => LifeTold::Ends(*pid),
        Record::Call { .. } => child_life(child_told(entry)),
        _ => LifeTold::NoLife,
    }
}

/// What was received with its origins, by a boot or a call.
pub fn give_of(entry: &Record) -> Option<&Give>
    ensures { option_map (λ give. give.now) result ≡ records.give_of entry.now }
{
    match entry {
        Record::Boot { give, .. }
        | Record::Call {
            extra: Extra::Give(give),
            ..
        } => Some(give),
        _ => None,
    }
}
