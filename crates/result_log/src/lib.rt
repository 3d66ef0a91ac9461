//! The bytes by which the records of a run are kept.
#![tactic(auto)]

mod extras;
mod get;
mod kinds;
mod law;
mod len;
mod put;
mod put_extras;
mod split;
mod starts;

pub use get::get_record;
pub use law::records_spelled_one_way;
pub use len::spelled_len;
pub use put::put_record;
pub use schedule_log::GetError;
