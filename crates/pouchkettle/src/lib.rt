// What a gateway in Rust or C calls: opening, securing and the hash of firmware. `pouchkettle_c` exports these functions under the same
// names. Answers are numbers, which docs/AUDIT.md lists.
#![tactic(auto)]

mod application;
mod firmware;
mod network;

pub use application::{ToldAps, pouchkettle_open_aps, pouchkettle_secure_aps};
pub use firmware::{
    ToldDigest, ToldHashing, pouchkettle_hash_add, pouchkettle_hash_finish, pouchkettle_hash_start,
    pouchkettle_hash_start_from,
};
pub use network::{
    ToldNwk, ToldRows, pouchkettle_forget, pouchkettle_open_nwk, pouchkettle_reset,
    pouchkettle_secure_nwk,
};
