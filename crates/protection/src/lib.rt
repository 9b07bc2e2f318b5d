// Protection itself (security/mod.rs of the Rust; document 01, Protection): the level is filled in at the control byte for nonce and
// associated data, and cleared on the air.
#![tactic(auto)]

ghost use Rattle.std.specs.Prelude.{◌≡◌, ◌++◌, ◌+◌, ◌≤◌, ◌<◌, length, take, drop};
ghost use Rattle.answer.specs.Numbers.{when_done};
ghost use Rattle.auxiliary_header.specs.Auxiliary.{auxiliary_length, auxiliary_octets};
ghost use Rattle.protection.specs.Protection.{vouches, opened_octets, secured_octets};
ghost use Rattle.protection.specs.Heard.{freshness, vouching, tried};

use answer::{Accepted, Answer, Refusal};
use control::Control;
use std::cmp::Ordering;

// The level of document 01, and the length of its tag.
const LEVEL: u8 = 5;

const TAG: usize = 4;

// Whether a counter is above the held one, if one is held.
pub fn fresh(held: Option<u32>, counter: u32) -> Result<(), Refusal>
    ensures { result ≡ freshness held counter }
{
    let Some(held) = held else {
        return Ok(());
    };
    match counter.cmp(&held) {
        Ordering::Equal => Err(Refusal::CounterRepeated),
        Ordering::Less => Err(Refusal::CounterBehind),
        Ordering::Greater => Ok(()),
    }
}

// What protects a frame, and where: `at` is the place of its control byte, `payload` the place after its headers.
#[derive(Clone, Copy)]
pub struct Envelope {
    pub key: [u8; 16],
    pub sender: u64,
    pub counter: u32,
    pub at: usize,
    pub payload: usize,
    ghost headed: { at < payload },
}

impl Envelope {
    // Opens the frame where its tag is right: payload plain, level filled in. Else every byte stays.
    pub fn unprotect(self, frame: &mut [u8]) -> Result<(), Refusal>
        // What is asked relates the envelope to the frame, so it is no rule of the type.
        requires { (self.payload + 4 ≤ length frame.old) × (length frame.old ≤ 1024) }
        ensures value { result ≡ vouching (vouches self.key self.sender self.counter self.at self.payload frame.old) }
        ensures frame_after { frame.new ≡ when_done result (opened_octets self.key self.sender self.counter self.at self.payload frame.old) frame.old }
    {
        let keys = aes::expand(self.key);
        let sent = frame[self.at];
        let control = Control { byte: sent }.filled(LEVEL);
        let nonce = auxiliary_header::nonce(self.sender, self.counter, control);
        let size = frame.len() - TAG - self.payload;
        frame[self.at] = control.byte;
        let opened = ccm::unseal(&keys, nonce, TAG, frame, self.payload, size);
        if opened.is_err() {
            frame[self.at] = sent;
        }
        opened
    }

    // Whether the frame's tag is right; the frame itself is left alone.
    #[tactic(auto, using(crate::proofs::Answers::copied))]
    pub fn vouch(self, frame: &[u8]) -> Result<(), Refusal>
        requires { (self.payload + 4 ≤ length frame.now) × (length frame.now ≤ 1024) }
        ensures { result ≡ vouching (vouches self.key self.sender self.counter self.at self.payload frame.now) }
    {
        let mut aside = [0u8; 1024];
        let n = frame.len();
        octets::copy(frame, &mut aside);
        self.unprotect(&mut aside[..n])
    }

    // The tag is checked before the room for a new row; without room nothing is opened.
    #[tactic(auto, unfolding(crate::specs::Heard::tried))]
    pub fn open(self, room: bool, frame: &mut [u8]) -> Answer
        requires { (self.payload + 4 ≤ length frame.old) × (length frame.old ≤ 1024) }
        ensures value { result ≡ (tried self.key self.sender self.counter self.at self.payload room frame.old).answer }
        ensures frame_after { frame.new ≡ (tried self.key self.sender self.counter self.at self.payload room frame.old).frame }
    {
        if !room {
            self.vouch(frame)?;
            return Err(Refusal::TableFull);
        }
        self.unprotect(frame)?;
        Ok(Accepted::Done {
            start: self.payload,
            len: frame.len() - TAG - self.payload,
        })
    }

    // Seals the n bytes from `payload` on, after headers whose control byte is as it goes on the air, and puts the tag after them.
    pub fn protect(self, out: &mut [u8], n: usize)
        requires { (self.payload ≤ 1024) × (n ≤ 1024) × (self.payload + n + 4 ≤ length out.old) }
        ensures { out.new ≡ secured_octets self.key self.sender self.counter self.at (take self.payload out.old) (take n (drop self.payload out.old)) ++ drop (self.payload + n + 4) out.old }
    {
        let keys = aes::expand(self.key);
        let sent = out[self.at];
        let control = Control { byte: sent }.filled(LEVEL);
        let nonce = auxiliary_header::nonce(self.sender, self.counter, control);
        out[self.at] = control.byte;
        ccm::seal(&keys, nonce, TAG, out, self.payload, n).unwrap();
        out[self.at] = sent;
    }

    // The finished frame from the plain one, whose header ends at `at`: headers, payload enciphered, tag. What stands in `out` past it stays.
    pub fn send(self, control: Control, number: u8, plain: &[u8], out: &mut [u8])
        requires { (self.at ≤ length plain.now) × (self.payload ≡ self.at + auxiliary_length control.byte) × (length plain.now + auxiliary_length control.byte ≤ 1024)
            × (length plain.now + auxiliary_length control.byte + 4 ≤ length out.old) }
        ensures { out.new ≡ secured_octets self.key self.sender self.counter self.at
            (take self.at plain.now ++ auxiliary_octets control.byte self.counter self.sender number) (drop self.at plain.now)
            ++ drop (length plain.now + auxiliary_length control.byte + 4) out.old }
    {
        octets::copy(&plain[..self.at], out);
        auxiliary_header::write(out, self.at, control, self.counter, self.sender, number).unwrap();
        octets::copy(&plain[self.at..], &mut out[self.payload..]);
        self.protect(out, plain.len() - self.at);
    }
}
