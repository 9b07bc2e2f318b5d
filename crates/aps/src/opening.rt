// Opening an APS frame (document 01, 'Order of checks'): who it claims to be from, the pair held for that device, the judgement,
// and then one commit.
ghost use Rattle.std.specs.Prelude.{◌≡◌, ◌||◌, ◌+◌, ◌≤◌, ◌<◌, ltb, is_some, length};
ghost use Rattle.aps.specs.OpenAps.{link_key, incoming, aps_judged, open_aps};
ghost use Rattle.aps.specs.Opening.{held_in, allowed, replied, committed};

use crate::keys::key_for;
use crate::state::{Aps, unfit};
use aib::{PairRow, Pairs, TRUST_CENTER_LINK_KEY};
use answer::{Answer, Refusal};
use claims::{Claim, Who};
use protection::Envelope;

// An unknown device is tried with the trust centre link key.
fn link_key(held: Option<PairRow>) -> [u8; 16]
    ensures { result ≡ link_key (held_in held) }
{
    match held {
        Some(row) => row.key,
        None => TRUST_CENTER_LINK_KEY,
    }
}

// A device that has a row needs no new one.
fn has_room(held: Option<PairRow>, used: usize) -> bool
    ensures { result ≡ is_some held || ltb used 16 }
{
    held.is_some() || used < 16
}

// What the counter held for the device and the frame's size say, before the tag.
#[tactic(auto, unfolding(crate::specs::Opening::allowed))]
fn allowed(claim: Claim, held: Option<PairRow>, size: usize) -> Result<(), Refusal>
    requires { claim.payload ≤ size }
    ensures { result ≡ allowed claim (incoming (held_in held)) size }
{
    protection::fresh(held.map(|row| row.incoming), claim.counter)?;
    if size - claim.payload < 4 {
        return Err(Refusal::Cut);
    }
    Ok(())
}

fn judged(claim: Claim, held: Option<PairRow>, room: bool, frame: &mut [u8]) -> Answer
    requires { (claim.at < claim.payload) × (claim.payload ≤ length frame.old) × (length frame.old ≤ 1024) }
    ensures { record { answer = result; frame = frame.new } ≡ replied room (aps_judged claim (held_in held) frame.old) }
{
    allowed(claim, held, frame.len())?;
    let key = key_for(claim.control.key(), link_key(held)).ok_or(Refusal::KeyNotAllowed)?;
    let envelope = Envelope {
        key,
        sender: claim.sender,
        counter: claim.counter,
        at: claim.at,
        payload: claim.payload,
    };
    envelope.open(room, frame)
}

// The judgement, and the one commit: only a frame that was opened changes a row.
fn open_claim(pairs: &mut Pairs, claim: Claim, frame: &mut [u8]) -> Answer
    requires { (pairs.old.used ≤ 16) × (claim.at < claim.payload) × (claim.payload ≤ length frame.old) × (length frame.old ≤ 1024) }
    ensures { record { answer = result; frame = frame.new; pairs = pairs.new } ≡ committed pairs.old claim frame.old }
{
    let held = aib::find(pairs, claim.sender);
    let opened = judged(claim, held, has_room(held, pairs.used), frame)?;
    aib::record(pairs, claim.sender, claim.counter)?;
    Ok(opened)
}

// Opens the frame in place, or leaves every byte and every row as it was.
pub fn open_aps(aps: Aps, pairs: &mut Pairs, frame: &mut [u8]) -> Answer
    ensures { record { answer = result; frame = frame.new; pairs = pairs.new } ≡ open_aps aps pairs.old frame.old }
{
    if unfit(aps, pairs.used) {
        return Err(Refusal::Unsupported);
    }
    let who = claims::aps_who(frame)?;
    match who {
        Who::Told(accepted) => Ok(accepted),
        Who::Claims(claim) => open_claim(pairs, claim, frame),
    }
}
