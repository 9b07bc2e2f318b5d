// Securing an APS frame (document 01, 'Order of checks'): the judgement, then the finished frame and the counter of the row used.
ghost use Rattle.std.specs.Prelude.{◌≡◌, false, ◌++◌, ◌+◌, ◌≤◌, length, drop};
ghost use Rattle.control.specs.Control.{has_number, sent};
ghost use Rattle.aps.specs.SecureAps.{aps_on_air, secure_aps};

use crate::keys::key_for;
use crate::sending::{ADDED, Chosen, judged};
use crate::state::Aps;
use aib::Pairs;
use answer::{Accepted, Answer};
use control::Control;
use frame_header::ApsControl;
use protection::Envelope;

// Control, counter and sender.
const AUXILIARY: usize = 13;

// The finished frame: headers, payload enciphered, tag.
fn put(aps: Aps, chosen: Chosen, plain: &[u8], header: usize, out: &mut [u8])
    requires { (has_number (sent chosen.identifier) ≡ false) × (header ≤ length plain.now) × (length plain.now ≤ 1006) × (length plain.now + 17 ≤ length out.old) }
    ensures { out.new ≡ aps_on_air aps chosen.row chosen.identifier plain.now header ++ drop (length plain.now + 17) out.old }
{
    let Chosen { row, identifier } = chosen;
    let envelope = Envelope {
        key: key_for(identifier, row.key).unwrap(),
        sender: aps.own,
        counter: row.outgoing,
        at: header,
        payload: header + AUXILIARY,
    };
    envelope.send(Control::sent(identifier), 0, plain, out);
}

// Writes the finished frame to `out` and raises the counter of the row used, or leaves both as they were.
pub fn secure_aps(
    aps: Aps,
    pairs: &mut Pairs,
    device: u64,
    extended: bool,
    plain: &[u8],
    out: &mut [u8],
) -> Answer
    ensures { record { answer = result; out = out.new; pairs = pairs.new } ≡ secure_aps aps pairs.old device extended plain.now out.old }
{
    let found = aib::usable(pairs, device);
    let chosen = judged(aps, pairs.used, found, extended, plain, out.len())?;
    put(
        aps,
        chosen,
        plain,
        ApsControl { byte: plain[0] }.length(),
        out,
    );
    aib::advance(pairs, device)?;
    Ok(Accepted::Done {
        start: 0,
        len: plain.len() + ADDED,
    })
}
