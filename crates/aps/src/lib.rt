// Opening and securing APS frames (security/mod.rs of the Rust; document 01, 'Order of checks').
#![tactic(auto)]

mod keys;
mod opening;
mod securing;
mod sending;
mod state;

pub use opening::open_aps;
pub use securing::secure_aps;
pub use state::Aps;
