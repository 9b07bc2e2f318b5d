// The number of the active network key (document 01, opening NWK; ZB 4.6.3.4.1: a key update carries the next number).
ghost use Rattle.std.specs.Prelude.{◌≡◌};
ghost use Rattle.nib.specs.Active.{next, turn};

// The number after this one; 255 is followed by 0.
pub fn following(number: u8) -> u8
    ensures { result ≡ next number }
{
    number.wrapping_add(1)
}

// The active number after a frame opened under `number`.
#[tactic(auto, unfolding(crate::specs::Active::turn))]
pub fn turned(active: u8, number: u8) -> u8
    ensures { result ≡ turn active number }
{
    if number == following(active) {
        number
    } else {
        active
    }
}
