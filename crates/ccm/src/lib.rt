// CCM (RFC 3610) over AES-128: a nonce of 13 bytes, lengths and counters of two, the tag's length a parameter.
#![tactic(auto)]

mod blocks;
mod calls;
mod cipher;
mod counter;
mod frames;
mod mac;

pub use calls::{seal, unseal};
