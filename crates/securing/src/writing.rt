// The finished NWK frame, written once every check has passed and the counter is taken.
ghost use Rattle.std.specs.Prelude.{◌≡◌, ◌++◌, ◌+◌, ◌≤◌, length, drop};
ghost use Rattle.securing.specs.SecureNwk.{nwk_added, nwk_on_air};

use control::{Control, KeyIdentifier};
use nib::Nwk;
use protection::Envelope;

// The length of the auxiliary header that NWK sends, with sender and key number.
pub(crate) const AUXILIARY: usize = 14;

// What securing adds: the auxiliary header, and a tag of 4.
pub const ADDED: usize = AUXILIARY + 4;

// Writes the frame under this counter; what stands in `out` past it stays.
pub fn finish(nwk: Nwk, counter: u32, plain: &[u8], out: &mut [u8], header: usize)
    requires { (header ≤ length plain.now) × (length plain.now ≤ 1006) × (length plain.now + nwk_added ≤ length out.old) }
    ensures { out.new ≡ nwk_on_air nwk counter plain.now header ++ drop (length plain.now + nwk_added) out.old }
{
    let envelope = Envelope {
        key: nib::key_under(nwk.keys, nwk.active),
        sender: nwk.own,
        counter,
        at: header,
        payload: header + AUXILIARY,
    };
    let control = Control::sent(KeyIdentifier::Network);
    envelope.send(control, nwk.active, plain, out);
}
