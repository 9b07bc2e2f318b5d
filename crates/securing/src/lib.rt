// The two halves of securing an NWK frame (security/mod.rs of the Rust; document 01, 'Order of checks'): every check, and the frame
// that is written once a counter is taken.
#![tactic(auto)]

mod ready;
mod writing;

pub use ready::{Ready, ready_for};
pub use writing::{ADDED, finish};
