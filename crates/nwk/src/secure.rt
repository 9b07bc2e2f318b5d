// Securing NWK, from a plain frame to an output buffer. The outgoing counter is the caller's record.
ghost use Rattle.std.specs.Prelude.{◌≡◌};
ghost use Rattle.securing.specs.SecureNwk.{secure_nwk};
ghost use Rattle.nwk.specs.Leaves.{secured};

use answer::Answer;
use nib::{Nwk, Outgoing};
use securing::{finish, ready_for};

// Secures the plain frame into `out`; what stands there past the finished frame stays. Every check comes before the counter is taken.
pub fn secure_nwk(nwk: Nwk, outgoing: &mut Outgoing, plain: &[u8], out: &mut [u8]) -> Answer
    ensures { secured result out.new outgoing.new ≡ secure_nwk nwk outgoing.old plain.now out.old }
{
    let ready = ready_for(nwk, outgoing.next, plain, out.len())?;
    let counter = counter_record::take(outgoing)?;
    finish(nwk, counter, plain, out, ready.header);
    Ok(ready.answer)
}
