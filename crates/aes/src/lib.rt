// AES-128 encryption (FIPS 197): key expansion, and one block under the expanded keys.
// Round keys are 44 words; a word holds four bytes, the byte of row 0 lowest.
#![tactic(auto)]

mod rounds;
mod schedule;

pub use rounds::{encipher, encipher_state, encrypt};
pub use schedule::{expand, expand_with};
