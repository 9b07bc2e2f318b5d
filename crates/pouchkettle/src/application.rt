// APS. The pair rows go in by value and come back.
ghost use Rattle.std.specs.Prelude.{◌≡◌};
ghost use Rattle.aps.specs.OpenAps.{open_aps};
ghost use Rattle.aps.specs.SecureAps.{secure_aps};
ghost use Rattle.answer.specs.Numbers.{told};

use aib::Pairs;
use answer::Told;
use aps::Aps;

// What the call tells, and the pair rows after it.
#[repr(C)]
#[derive(Clone, Copy)]
pub struct ToldAps {
    pub told: Told,
    pub pairs: Pairs,
}

// Opens a frame in place.
pub fn pouchkettle_open_aps(aps: Aps, mut pairs: Pairs, frame: &mut [u8]) -> ToldAps
    ensures { (result.told ≡ told (open_aps aps pairs frame.old).answer)
        × (result.pairs ≡ (open_aps aps pairs frame.old).pairs)
        × (frame.new ≡ (open_aps aps pairs frame.old).frame) }
{
    let told = Told::from(aps::open_aps(aps, &mut pairs, frame));
    ToldAps { told, pairs }
}

// Secures the plain frame for a device into `out`; what stands there past the finished frame stays.
pub fn pouchkettle_secure_aps(
    aps: Aps,
    mut pairs: Pairs,
    device: u64,
    extended: bool,
    plain: &[u8],
    out: &mut [u8],
) -> ToldAps
    ensures { (result.told ≡ told (secure_aps aps pairs device extended plain.now out.old).answer)
        × (result.pairs ≡ (secure_aps aps pairs device extended plain.now out.old).pairs)
        × (out.new ≡ (secure_aps aps pairs device extended plain.now out.old).out) }
{
    let secured = aps::secure_aps(aps, &mut pairs, device, extended, plain, out);
    ToldAps {
        told: Told::from(secured),
        pairs,
    }
}
