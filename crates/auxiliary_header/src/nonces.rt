// The nonce of a frame (ZB 4.5.2.2).
ghost use Rattle.std.specs.Prelude.{◌≡◌};
ghost use Rattle.auxiliary_header.specs.Nonce.{nonce_of};

use crate::numbers::put;
use control::Control;

// The control byte goes in as it is given: the caller has filled the level in.
#[tactic(auto, using(crate::proofs::Turns::stores), unfolding(crate::specs::Nonce::nonce_of))]
pub fn nonce(sender: u64, counter: u32, control: Control) -> [u8; 13]
    ensures { result ≡ nonce_of sender counter control.byte }
{
    let mut nonce = [0u8; 13];
    put(&mut nonce, 0, &sender.to_le_bytes());
    put(&mut nonce, 8, &counter.to_le_bytes());
    nonce[12] = control.byte;
    nonce
}
