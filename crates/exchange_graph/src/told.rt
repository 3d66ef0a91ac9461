// What one record tells of exchanges.
ghost use Rattle.std.specs.Prelude.{◌≡◌, option_map};
ghost use Rattle.history_model.specs.Exchanges as exchanges;

use acts_model::child_told;
use arn_base::{Extra, Give, Record};
use parts_model::calls::{EXEC, READ, WAIT};

/// Whether a call receives bytes with their origins.
fn is_receiving(number: u64) -> bool
    ensures { result ≡ exchanges.is_receiving number }
{
    number == EXEC || number == WAIT || number == READ
}

/// The bytes that an event received, with their origins.
pub fn received(entry: &Record) -> Option<&Give>
    ensures { option_map (λ give. give.now) result ≡ exchanges.received entry.now }
{
    match entry {
        Record::Boot { give, .. } => Some(give),
        Record::Call {
            number,
            extra: Extra::Give(give),
            ..
        } if is_receiving(*number) => Some(give),
        _ => None,
    }
}

/// The child that an event made, if it started a group.
pub fn founded(entry: &Record) -> Option<u64>
    ensures { result ≡ exchanges.founded entry.now }
{
    match child_told(entry) {
        Some(child) if child.start.is_some() => Some(child.number),
        _ => None,
    }
}
