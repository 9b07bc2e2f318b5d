// Whether a plain frame may be secured, and by which key (document 01, securing APS, up to the room): this only reads.
ghost use Rattle.std.specs.Prelude.{◌≡◌, ◌≤◌, get_or};
ghost use Rattle.frame_header.specs.Aps.{aps_length};
ghost use Rattle.aps.specs.SecureAps.{identifier_for};
ghost use Rattle.aps.specs.Sending.{choice, carried_by, shortest, kind_taken, plain_taken, sendable, judgement};

use crate::state::{Aps, unfit};
use aib::PairRow;
use answer::Refusal;
use control::KeyIdentifier;
use frame_header::ApsControl;

// The row by which a frame is secured, and the key.
#[derive(Clone, Copy)]
pub(crate) struct Chosen {
    pub row: PairRow,
    pub identifier: KeyIdentifier,
}

const TRANSPORT_KEY: u8 = 0x05;

// What securing adds to a frame: control, counter and sender (13 bytes), and the tag (4).
pub(crate) const ADDED: usize = 17;

// 0 where the frame has no such byte. `ccm` and `replay` have this line too: one function of `octets` for them is no plainer, being a
// contract and two edits for one line.
fn octet_at(plain: &[u8], at: usize) -> u8
    ensures { result ≡ get_or plain.now at 0 }
{
    plain.get(at).copied().unwrap_or(0)
}

// A command goes by the link key; a key that is carried, by the key for its type. Both are octets of the frame, met here alone: an enum
// of them is no plainer.
fn carried_by(command: u8, kind: u8) -> Result<KeyIdentifier, Refusal>
    ensures { result ≡ choice (carried_by command kind) }
{
    match (command, kind) {
        (TRANSPORT_KEY, 1) => Ok(KeyIdentifier::Transport),
        (TRANSPORT_KEY, 3 | 4) => Ok(KeyIdentifier::Load),
        (TRANSPORT_KEY, _) => Err(Refusal::Unsupported),
        _ => Ok(KeyIdentifier::Link),
    }
}

#[tactic(auto, using(crate::proofs::SendingLaws::header_small))]
fn identifier_for(plain: &[u8], control: ApsControl) -> Result<KeyIdentifier, Refusal>
    requires { control.byte ≡ get_or plain.now 0 0 }
    ensures { result ≡ choice (identifier_for plain.now (aps_length control.byte)) }
{
    if !control.command() {
        return Ok(KeyIdentifier::Link);
    }
    let header = control.length();
    carried_by(octet_at(plain, header), octet_at(plain, header + 1))
}

// The header, and of a command its first payload byte.
#[tactic(auto, using(crate::proofs::SendingLaws::header_small))]
fn shortest(control: ApsControl) -> usize
    ensures { result ≡ shortest control.byte }
{
    if control.command() {
        control.length() + 1
    } else {
        control.length()
    }
}

#[tactic(auto, unfolding(crate::specs::Sending::kind_taken))]
fn kind_taken(control: ApsControl, size: usize) -> Result<(), Refusal>
    ensures { result ≡ kind_taken control.byte size }
{
    if !control.taken() || !control.secured() {
        return Err(Refusal::Unsupported);
    }
    if size < shortest(control) {
        return Err(Refusal::Cut);
    }
    Ok(())
}

#[tactic(auto, unfolding(crate::specs::Sending::plain_taken))]
fn plain_taken(aps: Aps, used: usize, plain: &[u8]) -> Result<(), Refusal>
    ensures { result ≡ plain_taken aps used plain.now }
{
    if unfit(aps, used) || 1006 < plain.len() {
        return Err(Refusal::Unsupported);
    }
    if plain.is_empty() {
        return Err(Refusal::Cut);
    }
    kind_taken(ApsControl { byte: plain[0] }, plain.len())
}

// The row by which the frame goes out, its counter, and the room for the finished frame. Data goes out only with the extended nonce,
// that is with a sender; a command always does.
fn sendable(
    found: Option<PairRow>,
    command: bool,
    extended: bool,
    size: usize,
    room: usize,
) -> Result<PairRow, Refusal>
    requires { size ≤ 1006 }
    ensures { result ≡ sendable found command extended size room }
{
    let row = found.ok_or(Refusal::NoPair)?;
    if row.outgoing == 4294967295 {
        return Err(Refusal::CounterSpent);
    }
    if !command && !extended {
        return Err(Refusal::SenderAbsent);
    }
    if room < size + ADDED {
        return Err(Refusal::NoRoom);
    }
    Ok(row)
}

// All checks of securing, in order.
#[tactic(auto, unfolding(crate::specs::Sending::judgement))]
pub(crate) fn judged(
    aps: Aps,
    used: usize,
    found: Option<PairRow>,
    extended: bool,
    plain: &[u8],
    room: usize,
) -> Result<Chosen, Refusal>
    ensures { result ≡ judgement aps used found extended plain.now room }
{
    plain_taken(aps, used, plain)?;
    let control = ApsControl { byte: plain[0] };
    let identifier = identifier_for(plain, control)?;
    let row = sendable(found, control.command(), extended, plain.len(), room)?;
    Ok(Chosen { row, identifier })
}
