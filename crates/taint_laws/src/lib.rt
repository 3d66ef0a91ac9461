//! What happens inside a group alone is what following its members says: each step is one of what its
//! members hold before it, all steps are possible, and who was told of them shows where bytes come from.
//!
//! What holds is stated by functions that do nothing.
#![tactic(auto)]

mod law;

pub use law::{
    follows_holders, hears_events, told_hears, told_holds, told_keeps, told_shows,
    unheard_have_none,
};
