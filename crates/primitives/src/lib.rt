// The hash of the Zigbee specification, annex B.6, of a whole message, and the keyed hash of RFC 2104 over it. `mmo` has the hash itself,
// of data that come in parts.
#![tactic(auto)]

mod calls;
mod keyed;
mod messages;

pub use calls::{hash, hash_from, keyed_hash};
