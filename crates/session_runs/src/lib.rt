//! The line of a session that runs the machine: slices that a chooser picks, each leg of them committed
//! before what it wrote is printed.
#![tactic(auto)]

mod law;
mod outputs;
mod printing;
mod ready;
mod running;
mod runs;

pub use law::{
    points_follow, quiet_points_follow, runs_end, slices_unplug_nothing, touches_follow,
};
pub use ready::{count_records, history_laws};
pub use running::run;
pub use runs::MachineRuns;
