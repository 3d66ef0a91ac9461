// What is kept of a history.
use guest_machine::Machine;
use log_store::Store;
use std::alloc::Global;

/// The log of a history, the machine to which its records lead, once a command has needed it, and what
/// answers questions about it. `alloc` gives the memory for the machine and for records to come.
#[derive(Drop)]
pub struct Kept<Q> {
    pub alloc: Global,
    pub store: Store,
    pub machine: Option<Machine>,
    pub questions: Q,
}
