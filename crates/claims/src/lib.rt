// What a frame's headers settle, and what it claims where they do not, before anything vouches for it (security/mod.rs of the Rust).
#![tactic(auto)]

ghost use Rattle.std.specs.Prelude.{◌≡◌};
ghost use Rattle.auxiliary_header.specs.Auxiliary.{auxiliary_at};
ghost use Rattle.claims.specs.Claims.{sized, unspent, claimed, number_of, nwk_who, aps_who};

use answer::{Accepted, Refusal};
use auxiliary_header::{Auxiliary, KeyUsed};
use control::Control;
use nib::NetworkKeys;

// Sender, counter and key as the auxiliary header has them; `at` is the place of its control byte, `payload` the place after it.
#[derive(Clone, Copy, Debug, PartialEq, Eq)]
pub struct Claim {
    pub key: KeyUsed,
    pub sender: u64,
    pub counter: u32,
    pub control: Control,
    pub at: usize,
    pub payload: usize,
}

// What is said of a frame that is not refused: its answer is settled, or it claims to be somebody's. Headers settle that it is plain.
#[derive(Clone, Copy, Debug, PartialEq, Eq)]
pub enum Who {
    Told(Accepted),
    Claims(Claim),
}

// The key number that a frame names; 0 where it names none, as docs/PROMISES.md has it (an NWK claim always names one).
pub fn number_of(key: KeyUsed) -> u8
    ensures { result ≡ number_of key }
{
    match key {
        KeyUsed::Link => 0,
        KeyUsed::Network(number) => number,
        KeyUsed::Transport => 0,
        KeyUsed::Load => 0,
    }
}

// Four bytes at least, and no more than 1,024.
fn sized(frame: &[u8]) -> Result<(), Refusal>
    ensures { result ≡ sized frame.now }
{
    if 1024 < frame.len() {
        return Err(Refusal::Unsupported);
    }
    if frame.len() < 4 {
        return Err(Refusal::Cut);
    }
    Ok(())
}

// The auxiliary header, where its counter may still be used.
fn unspent(frame: &[u8], at: usize) -> Result<Auxiliary, Refusal>
    ensures { result ≡ unspent (auxiliary_at frame.now at) }
{
    let a = auxiliary_header::read(frame, at)?;
    if a.counter == u32::MAX {
        return Err(Refusal::CounterSpent);
    }
    Ok(a)
}

fn claimed(a: Auxiliary, sender: u64, at: usize) -> Who
    ensures { result ≡ claimed a sender at }
{
    Who::Claims(Claim {
        key: a.key,
        sender,
        counter: a.counter,
        control: a.control,
        at,
        payload: a.next,
    })
}

// Document 01, opening NWK, up to the keys.
#[tactic(auto, using(crate::proofs::Within::nwk_within), unfolding(crate::specs::Claims::nwk_who))]
pub fn nwk_who(keys: NetworkKeys, frame: &[u8]) -> Result<Who, Refusal>
    ensures { result ≡ nwk_who keys frame.now }
{
    sized(frame)?;
    let header = frame_header::nwk(frame)?;
    let start = header.len;
    if !header.secured {
        let len = frame.len() - start;
        return Ok(Who::Told(Accepted::Plain { start, len }));
    }
    let a = unspent(frame, start)?;
    let sender = a.sender.ok_or(Refusal::SenderAbsent)?;
    let KeyUsed::Network(number) = a.key else {
        return Err(Refusal::KeyNotAllowed);
    };
    nib::key_of(keys, number).ok_or(Refusal::NoNetworkKey)?;
    Ok(claimed(a, sender, start))
}

// Document 01, opening APS, up to the device. It begins as NWK does, over a header of another type: a trait for the two is no plainer.
#[tactic(auto, using(crate::proofs::Within::aps_within), unfolding(crate::specs::Claims::aps_who))]
pub fn aps_who(frame: &[u8]) -> Result<Who, Refusal>
    ensures { result ≡ aps_who frame.now }
{
    sized(frame)?;
    let header = frame_header::aps(frame)?;
    let start = header.len;
    if !header.secured {
        let len = frame.len() - start;
        return Ok(Who::Told(Accepted::Plain { start, len }));
    }
    let a = unspent(frame, start)?;
    let sender = a.sender.ok_or(Refusal::DeviceAbsent)?;
    if matches!(a.key, KeyUsed::Network(_)) {
        return Err(Refusal::KeyNotAllowed);
    }
    Ok(claimed(a, sender, start))
}
