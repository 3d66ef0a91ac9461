//! Who answers a guest that asks a device: boxed devices in slots, or what was recorded. And the
//! devices and choosers that a program starts with.
#![tactic(auto)]

mod answers;
mod choosers;
mod copies;
mod devices;
mod law;
mod slots;
mod told;

pub use answers::{Answer, Answers, Plugs};
pub use choosers::{RoundChooser, ScriptChooser, SeededChooser};
pub use devices::{EntropyDevice, ScriptDevice, ScriptReply, SilentDevice};
pub use law::told_counts_as_named;
pub use slots::{Live, Slots, unplug, unplug_in};
pub use told::Told;
