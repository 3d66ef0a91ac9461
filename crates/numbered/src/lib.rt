//! Values by number, where a number may have none.
#![tactic(auto)]

mod numbered;

pub use numbered::Numbered;
