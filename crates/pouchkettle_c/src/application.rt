// APS. The pair rows go in by value and come back.
ghost use Rattle.std.specs.Prelude.{◌≡◌};
ghost use Rattle.aps.specs.OpenAps.{open_aps};
ghost use Rattle.aps.specs.SecureAps.{secure_aps};
ghost use Rattle.answer.specs.Numbers.{told};

use aib::Pairs;
use aps::Aps;
use pouchkettle::ToldAps;

// Opens a frame in place.
#[unsafe(no_mangle)]
pub extern "C" fn pouchkettle_open_aps(aps: Aps, pairs: Pairs, frame: &mut [u8]) -> ToldAps
    ensures { (result.told ≡ told (open_aps aps pairs frame.old).answer)
        × (result.pairs ≡ (open_aps aps pairs frame.old).pairs)
        × (frame.new ≡ (open_aps aps pairs frame.old).frame) }
{
    pouchkettle::pouchkettle_open_aps(aps, pairs, frame)
}

// Secures the plain frame for a device into `out`; what stands there past the finished frame stays.
#[unsafe(no_mangle)]
pub extern "C" fn pouchkettle_secure_aps(
    aps: Aps,
    pairs: Pairs,
    device: u64,
    extended: bool,
    plain: &[u8],
    out: &mut [u8],
) -> ToldAps
    ensures { (result.told ≡ told (secure_aps aps pairs device extended plain.now out.old).answer)
        × (result.pairs ≡ (secure_aps aps pairs device extended plain.now out.old).pairs)
        × (out.new ≡ (secure_aps aps pairs device extended plain.now out.old).out) }
{
    pouchkettle::pouchkettle_secure_aps(aps, pairs, device, extended, plain, out)
}
