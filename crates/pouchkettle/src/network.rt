// NWK. The counter rows and the outgoing counter are the gateway's own, lent for the call.
// Its structs tell numbers, with zeros beside a refusal: the C interface holds it.
ghost use Rattle.std.specs.Prelude.{◌≡◌};
ghost use Rattle.answer.specs.Numbers.{outcome_number, told};
ghost use Rattle.nib.specs.Counters.{forgotten};
ghost use Rattle.nib.specs.Sending.{restarted};
ghost use Rattle.judging.specs.OpenNwk.{open_nwk};
ghost use Rattle.securing.specs.SecureNwk.{secure_nwk};
ghost use Rattle.pouchkettle.specs.Told.{told_nwk, told_rows};

use answer::Told;
use nib::{CounterRow, Nwk, Outgoing};

// What opening tells, how many counter rows are in use after it, and the number of the active key.
#[repr(C)]
#[derive(Clone, Copy)]
pub struct ToldNwk {
    pub told: Told,
    pub used: usize,
    pub active: u8,
}

// Opens a frame in place. The first `used` counter rows are in use.
pub fn pouchkettle_open_nwk(
    nwk: Nwk,
    rows: &mut [CounterRow],
    used: usize,
    frame: &mut [u8],
) -> ToldNwk
    ensures { (result ≡ told_nwk (open_nwk nwk rows.old used frame.old))
        × (rows.new ≡ (open_nwk nwk rows.old used frame.old).rows)
        × (frame.new ≡ (open_nwk nwk rows.old used frame.old).frame) }
{
    let opened = nwk::open_nwk(nwk, rows, used, frame);
    ToldNwk {
        told: Told::from(opened.answer),
        used: opened.used,
        active: opened.active,
    }
}

// Secures the plain frame into `out`; what stands there past the finished frame stays.
pub fn pouchkettle_secure_nwk(
    nwk: Nwk,
    outgoing: &mut Outgoing,
    plain: &[u8],
    out: &mut [u8],
) -> Told
    ensures { (result ≡ told (secure_nwk nwk outgoing.old plain.now out.old).answer)
        × (outgoing.new ≡ (secure_nwk nwk outgoing.old plain.now out.old).outgoing)
        × (out.new ≡ (secure_nwk nwk outgoing.old plain.now out.old).out) }
{
    Told::from(nwk::secure_nwk(nwk, outgoing, plain, out))
}

// A number, and how many counter rows are in use after the call.
#[repr(C)]
#[derive(Clone, Copy)]
pub struct ToldRows {
    pub number: u8,
    pub used: usize,
}

// Forgets what was heard under a key number: for a key that goes.
pub fn pouchkettle_forget(rows: &mut [CounterRow], used: usize, number: u8) -> ToldRows
    ensures { (result ≡ told_rows (forgotten rows.old used number))
        × (rows.new ≡ (forgotten rows.old used number).rows) }
{
    match counter_rows::forget(rows, used, number) {
        Ok(used) => ToldRows { number: 0, used },
        Err(refusal) => ToldRows {
            number: u8::from(refusal),
            used,
        },
    }
}

// The outgoing counter after a change of key.
pub fn pouchkettle_reset(outgoing: Outgoing) -> Outgoing
    ensures { result ≡ restarted outgoing }
{
    nib::reset(outgoing)
}
