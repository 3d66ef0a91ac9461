//! What an instruction of a member of a group does to the sets of its bytes.
#![tactic(auto)]

mod moving;
mod running;
mod table;
mod taking;

pub use running::run;
pub use table::run_member;
pub use taking::taken;
