//! That what the tracking of single groups gives, joined over stored origins, is what tracking every
//! instruction of the whole machine gives.
//!
//! What holds is stated by functions that do nothing.
#![tactic(auto)]

mod law;

pub use law::lineage_is_joined;
