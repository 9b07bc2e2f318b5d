// The auxiliary header and the nonce (ZB 4.5.1, 4.5.2.2; document 01, Layouts).
#![tactic(auto)]

mod auxiliary;
mod nonces;
mod numbers;

pub use auxiliary::{Auxiliary, KeyUsed, auxiliary_length, read, write};
pub use nonces::nonce;
pub use numbers::number_at;
