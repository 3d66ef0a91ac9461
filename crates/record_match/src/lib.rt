//! Records, compared one by one with those that were made again.
#![tactic(auto)]

mod differs;
mod law;
mod matching;

pub use arn_base::Differs;
pub use differs::RebuildError;
pub use law::records_compare;
pub use matching::{first_missing, match_records};
