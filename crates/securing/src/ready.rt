// What securing NWK asks before it takes a counter (document 01, 'Order of checks').
ghost use Rattle.std.specs.Prelude.{◌≡◌, ◌≤◌, length, Ok};
ghost use Rattle.securing.specs.Ready.{ready_framed, ready_for};

use crate::writing::ADDED;
use answer::{Accepted, Refusal};
use frame_header::{NwkHeader, NwkKind};
use nib::Nwk;

const LEVEL: u8 = 5;

// The most bytes that a plain frame may have.
const LARGEST: usize = 1006;

// What is answered once the frame is written, and the length of the plain frame's header.
#[derive(Clone, Copy, Debug, PartialEq, Eq)]
pub struct Ready {
    pub answer: Accepted,
    pub header: usize,
}

// The checks that follow the header's, in document 01's order. Room is the last, before the counter is taken.
#[tactic(auto, unfolding(crate::specs::Ready::ready_framed))]
fn framed(nwk: Nwk, next: u32, size: usize, room: usize, h: NwkHeader) -> Result<Ready, Refusal>
    requires { size ≤ 1006 }
    ensures { result ≡ ready_framed nwk next size room (Ok h) }
{
    if h.kind != NwkKind::Data && h.kind != NwkKind::Command {
        return Err(Refusal::Unsupported);
    }
    if !h.secured {
        return Err(Refusal::Unsupported);
    }
    nib::key_of(nwk.keys, nwk.active).ok_or(Refusal::NoNetworkKey)?;
    if !nib::usable(nib::sending(next)) {
        return Err(Refusal::CounterExhausted);
    }
    if room < size + ADDED {
        return Err(Refusal::NoRoom);
    }
    Ok(Ready {
        answer: Accepted::Done {
            start: 0,
            len: size + ADDED,
        },
        header: h.len,
    })
}

// Every check; `next` is the next counter, and `room` the output buffer's length.
#[tactic(auto, unfolding(crate::specs::Ready::ready_for))]
pub fn ready_for(nwk: Nwk, next: u32, plain: &[u8], room: usize) -> Result<Ready, Refusal>
    ensures { result ≡ ready_for nwk next plain.now room }
{
    if nwk.level != LEVEL || 2 < nwk.keys.used || LARGEST < plain.len() {
        return Err(Refusal::Unsupported);
    }
    let h = frame_header::nwk(plain)?;
    framed(nwk, next, plain.len(), room, h)
}
