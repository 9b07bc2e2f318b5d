// Opening and securing NWK frames (security/mod.rs of the Rust; document 01, 'Order of checks').
#![tactic(auto)]

mod open;
mod secure;

pub use open::{OpenedNwk, open_nwk};
pub use secure::secure_nwk;
