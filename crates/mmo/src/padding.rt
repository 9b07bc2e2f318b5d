// Annex B.6: the padding.
ghost use Rattle.std.specs.Prelude.{◌≡◌, ◌∷◌, ◌++◌, ◌+◌, ◌-◌, ◌*◌, ◌/◌, ◌%◌, ◌<◌, ◌≤◌, length, replicate};
ghost use Rattle.mmo.specs.Hash.{padding};
ghost use Rattle.mmo.specs.Stream.{limit};

// s, the byte 0x80, the fewest zeros that make whole blocks, and the ending: one block or two of the lent bytes.
fn closed<'a>(s: &[u8], ending: &[u8], lent: &'a mut [u8; 32]) -> &'a [u8]
    requires { (length s.now < 16) × (length ending.now ≤ 6) }
    ensures { let end = (length s.now + length ending.now + 16) / 16 * 16 in
        result.now ≡ s.now ++ (0x80 ∷ (replicate (end - (length s.now + 1 + length ending.now)) 0 ++ ending.now)) }
{
    let n = s.len();
    let end = (n + ending.len() + 16) / 16 * 16;
    let at = end - ending.len();
    *lent = [0; 32];
    octets::copy(s, lent);
    lent[n] = 0x80;
    octets::copy(ending, &mut lent[at..]);
    &lent[..end]
}

// s, which is what a message of total bytes has after its last whole block, and then the padding.
#[tactic(auto, using(crate::proofs::PaddingLaws::short_made, crate::proofs::PaddingLaws::long_made))]
pub(crate) fn pad<'a>(s: &[u8], total: u32, lent: &'a mut [u8; 32]) -> &'a [u8]
    requires { (total ≤ limit) × (length s.now ≡ total % 16) }
    ensures { result.now ≡ s.now ++ padding total }
{
    let [a, b, c, d] = (8 * total).to_be_bytes();
    if total < 8192 {
        return closed(s, &[c, d], lent);
    }
    closed(s, &[a, b, c, d, 0, 0], lent)
}
