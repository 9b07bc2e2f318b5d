// The hash of the Zigbee specification, annex B.6 (Matyas-Meyer-Oseas over AES-128), of data that come in parts: start, add, finish.
#![tactic(auto)]

mod padding;
mod steps;
mod stream;

pub use steps::first_block;
pub use stream::{
    Hashing, hash_add, hash_add_with, hash_finish, hash_finish_with, hash_start, hash_start_from,
};
