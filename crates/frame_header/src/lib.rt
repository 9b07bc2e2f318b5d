// The headers in front of what is protected: how long they are, and what they say of the frame (ZB 3.3.1, 2.2.5.1; document 01,
// Layouts).
#![tactic(auto)]

mod application;
mod flags;
mod network;

pub use application::{ApsControl, ApsHeader, aps};
pub use network::{NwkHeader, NwkKind, nwk};
