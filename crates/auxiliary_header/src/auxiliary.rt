// The auxiliary header (ZB 4.5.1): control byte, counter, sender if present, key number if the identifier is the network key's.
ghost use Rattle.std.specs.Prelude.{◌≡◌, ◌+◌, ◌≤◌, length, get_or};
ghost use Rattle.std.proofs.lemmas.List.Edits.{sets};
ghost use Rattle.laws.specs.Numbers.{field};
ghost use Rattle.control.specs.Control.{has_sender, identifier_of};
ghost use Rattle.auxiliary_header.specs.Auxiliary.{sender_length, number_length, auxiliary_length, sender_if, key_used, auxiliary_at, sender_octets, number_octets, auxiliary_octets};
ghost use Rattle.auxiliary_header.specs.Written.{written, outcome_of};

use crate::numbers::{number_at, put};
use answer::Refusal;
use control::{Control, KeyIdentifier};

// The key that a frame names. Only a network key has a number.
#[derive(Clone, Copy, Debug, PartialEq, Eq)]
pub enum KeyUsed {
    Link,
    Network(u8),
    Transport,
    Load,
}

#[derive(Clone, Copy, Debug, PartialEq, Eq)]
pub struct Auxiliary {
    pub control: Control,
    pub counter: u32,
    // where the control byte says that it is present
    pub sender: Option<u64>,
    pub key: KeyUsed,
    // the place after the header
    pub next: usize,
}

fn sender_length(control: Control) -> usize
    ensures { result ≡ sender_length control.byte }
{
    if control.has_sender() { 8 } else { 0 }
}

fn number_length(control: Control) -> usize
    ensures { result ≡ number_length control.byte }
{
    if control.has_number() { 1 } else { 0 }
}

pub fn auxiliary_length(control: Control) -> usize
    ensures { result ≡ auxiliary_length control.byte }
{
    5 + sender_length(control) + number_length(control)
}

fn sender_at(s: &[u8], at: usize, control: Control) -> Option<u64>
    requires { at + sender_length control.byte ≤ length s.now }
    ensures { result ≡ sender_if (has_sender control.byte) (field s.now at 8) }
{
    if control.has_sender() {
        Some(number_at(s, at, 8))
    } else {
        None
    }
}

#[tactic(auto, using(crate::proofs::AuxiliaryLaws::networks))]
fn key_at(s: &[u8], at: usize, control: Control) -> KeyUsed
    requires { at + number_length control.byte ≤ length s.now }
    ensures { result ≡ key_used (identifier_of control.byte) (get_or s.now at 0) }
{
    match control.key() {
        KeyIdentifier::Link => KeyUsed::Link,
        KeyIdentifier::Network => KeyUsed::Network(s[at]),
        KeyIdentifier::Transport => KeyUsed::Transport,
        KeyIdentifier::Load => KeyUsed::Load,
    }
}

// The auxiliary header that starts at `at`, any place at all.
#[tactic(auto, using(crate::proofs::AuxiliaryLaws::lengths), unfolding(crate::specs::Auxiliary::auxiliary_at))]
pub fn read(s: &[u8], at: usize) -> Result<Auxiliary, Refusal>
    ensures { result ≡ auxiliary_at s.now at }
{
    let byte = s.get(at).copied().ok_or(Refusal::Cut)?;
    let control = Control { byte };
    let length = auxiliary_length(control);
    if s.len() - at < length {
        return Err(Refusal::Cut);
    }
    Ok(Auxiliary {
        control,
        counter: number_at(s, at + 1, 4) as u32,
        sender: sender_at(s, at + 5, control),
        key: key_at(s, at + 5 + sender_length(control), control),
        next: at + length,
    })
}

#[tactic(auto, using(crate::proofs::Turns::octets_8))]
fn put_sender(out: &mut [u8], at: usize, control: Control, sender: u64)
    requires { at + sender_length control.byte ≤ length out.old }
    ensures { out.new ≡ sets out.old at (sender_octets control.byte sender) }
{
    if control.has_sender() {
        put(out, at, &sender.to_le_bytes());
    }
}

fn put_number(out: &mut [u8], at: usize, control: Control, number: u8)
    requires { at + number_length control.byte ≤ length out.old }
    ensures { out.new ≡ sets out.old at (number_octets control.byte number) }
{
    if control.has_number() {
        out[at] = number;
    }
}

// All of the header's octets, where there is room for them.
fn put_all(out: &mut [u8], at: usize, control: Control, counter: u32, sender: u64, number: u8)
    requires { at + auxiliary_length control.byte ≤ length out.old }
    ensures { out.new ≡ sets out.old at (auxiliary_octets control.byte counter sender number) }
{
    out[at] = control.byte;
    put(out, at + 1, &counter.to_le_bytes());
    put_sender(out, at + 5, control, sender);
    put_number(out, at + 5 + sender_length(control), control, number);
}

// Writes the auxiliary header from `at` on. Sender and number are used only where the control byte says that they are present.
// Six parameters, as docs/PROMISES.md has it: a struct of the four values is no plainer, built at each call and taken apart here.
#[tactic(auto, using(crate::proofs::AuxiliaryLaws::lengths), unfolding(crate::specs::Written::written, crate::specs::Written::outcome_of))]
pub fn write(
    out: &mut [u8],
    at: usize,
    control: Control,
    counter: u32,
    sender: u64,
    number: u8,
) -> Result<(), Refusal>
    ensures value { result ≡ outcome_of out.old at (auxiliary_octets control.byte counter sender number) }
    ensures out_after { out.new ≡ written out.old at (auxiliary_octets control.byte counter sender number) }
{
    if out.len().saturating_sub(at) < auxiliary_length(control) {
        return Err(Refusal::NoRoom);
    }
    put_all(out, at, control, counter, sender, number);
    Ok(())
}
