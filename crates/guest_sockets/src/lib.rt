//! Ports that are listened to, and the connections that wait at them.
#![tactic(auto)]

mod errors;
mod port;
mod ports;

pub use errors::PortError;
pub use parts_model::Conn;
pub use ports::Ports;
