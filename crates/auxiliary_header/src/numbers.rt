// Numbers in a string of octets, low octet first.
ghost use Rattle.std.specs.Prelude.{◌≡◌, ◌+◌, ◌≤◌, ◌<◌, ◌^◌, length};
ghost use Rattle.std.proofs.lemmas.List.Edits.{sets};
ghost use Rattle.laws.specs.Numbers.{field};

// The number in the `count` octets of s from `at` on. By hand, since std's `from_le_bytes` takes a fixed count; and by places, since the
// bound speaks of how many octets are done: over a reversed iterator it is no plainer.
pub fn number_at(s: &[u8], at: usize, count: usize) -> u64
    requires { (at + count ≤ length s.now) × (count ≤ 8) }
    ensures { (result ≡ field s.now at count) × (result < 256 ^ count) }
{
    let mut number = 0;
    for i in (0..count).rev() {
        number = number * 256 + s[at + i] as u64;
    }
    number
}

// Puts octets to s, from `at` on.
#[tactic(auto, using(crate::proofs::Turns::copied))]
pub(crate) fn put(s: &mut [u8], at: usize, octets: &[u8])
    requires { at + length octets.now ≤ length s.old }
    ensures { s.new ≡ sets s.old at octets.now }
{
    s[at..at + octets.len()].copy_from_slice(octets);
}
