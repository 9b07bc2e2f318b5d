// Flags of a frame control field.
ghost use Rattle.std.specs.Prelude.{◌≡◌, cond, ◌<◌};
ghost use Rattle.laws.specs.Numbers.{bit};

#[tactic(auto, using(std::proofs::lemmas::Nat::and_mask), unfolding(laws::specs::Numbers::bit))]
pub(crate) fn is_set(bits: u16, place: u16) -> bool
    requires { place < 16 }
    ensures { result ≡ bit place bits }
{
    bits >> place & 1 == 1
}

// How many octets a field takes that is there only if flagged.
pub(crate) fn length_if(bits: u16, place: u16, size: usize) -> usize
    requires { place < 16 }
    ensures { result ≡ cond (bit place bits) size 0 }
{
    if is_set(bits, place) { size } else { 0 }
}
