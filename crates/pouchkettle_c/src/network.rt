// NWK. The counter rows and the outgoing counter are the gateway's own, lent for the call.
ghost use Rattle.std.specs.Prelude.{◌≡◌};
ghost use Rattle.answer.specs.Numbers.{told};
ghost use Rattle.nib.specs.Counters.{forgotten};
ghost use Rattle.nib.specs.Sending.{restarted};
ghost use Rattle.judging.specs.OpenNwk.{open_nwk};
ghost use Rattle.securing.specs.SecureNwk.{secure_nwk};
ghost use Rattle.pouchkettle.specs.Told.{told_nwk, told_rows};

use answer::Told;
use nib::{CounterRow, Nwk, Outgoing};
use pouchkettle::{ToldNwk, ToldRows};

// Opens a frame in place. The first `used` counter rows are in use.
#[unsafe(no_mangle)]
pub extern "C" fn pouchkettle_open_nwk(
    nwk: Nwk,
    rows: &mut [CounterRow],
    used: usize,
    frame: &mut [u8],
) -> ToldNwk
    ensures { (result ≡ told_nwk (open_nwk nwk rows.old used frame.old))
        × (rows.new ≡ (open_nwk nwk rows.old used frame.old).rows)
        × (frame.new ≡ (open_nwk nwk rows.old used frame.old).frame) }
{
    pouchkettle::pouchkettle_open_nwk(nwk, rows, used, frame)
}

// Secures the plain frame into `out`; what stands there past the finished frame stays.
#[unsafe(no_mangle)]
pub extern "C" fn pouchkettle_secure_nwk(
    nwk: Nwk,
    outgoing: &mut Outgoing,
    plain: &[u8],
    out: &mut [u8],
) -> Told
    ensures { (result ≡ told (secure_nwk nwk outgoing.old plain.now out.old).answer)
        × (outgoing.new ≡ (secure_nwk nwk outgoing.old plain.now out.old).outgoing)
        × (out.new ≡ (secure_nwk nwk outgoing.old plain.now out.old).out) }
{
    pouchkettle::pouchkettle_secure_nwk(nwk, outgoing, plain, out)
}

// Forgets what was heard under a key number: for a key that goes.
#[unsafe(no_mangle)]
pub extern "C" fn pouchkettle_forget(rows: &mut [CounterRow], used: usize, number: u8) -> ToldRows
    ensures { (result ≡ told_rows (forgotten rows.old used number))
        × (rows.new ≡ (forgotten rows.old used number).rows) }
{
    pouchkettle::pouchkettle_forget(rows, used, number)
}

// The outgoing counter after a change of key.
#[unsafe(no_mangle)]
pub extern "C" fn pouchkettle_reset(outgoing: Outgoing) -> Outgoing
    ensures { result ≡ restarted outgoing }
{
    pouchkettle::pouchkettle_reset(outgoing)
}
