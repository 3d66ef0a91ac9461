//! The bytes by which given bytes and their origins are kept.
#![tactic(auto)]

mod get;
mod law;
mod len;
mod origins;
mod put;

pub use get::{front_give, get_give};
pub use law::gives_spelled_one_way;
pub use len::{MOST_GIVE, give_len};
pub use put::put_give;
pub use schedule_log::GetError;
