// Strings of octets: XOR, whether two are the same, and copying.
#![tactic(auto)]

ghost use Rattle.std.specs.Prelude.{◌≡◌, ◌≤◌, ◌++◌, length, drop};
ghost use Rattle.laws.specs.Octets.{◌⊕◌, same};

// src XORed into dst from the front, as far as both go.
pub fn xor_into(dst: &mut [u8], src: &[u8])
    ensures { dst.new ≡ dst.old ⊕ src.now }
{
    let n = src.len().min(dst.len());
    // By places: of what is written through `iter_mut` under `zip` std says nothing, and under `enumerate` it is no plainer.
    for j in 0..n {
        dst[j] ^= src[j];
    }
}

// Whether two strings are the same. Where they are as long, the differences of all bytes are combined, and looked at once, at the end.
pub fn same(a: &[u8], b: &[u8]) -> bool
    ensures { result ≡ same a.now b.now }
{
    if a.len() != b.len() {
        return false;
    }
    let mut d = 0;
    for (x, y) in a.iter().zip(b) {
        d |= x ^ y;
    }
    d == 0
}

// src copied into dst from the front; what lies past it stays.
pub fn copy(src: &[u8], dst: &mut [u8])
    requires { length src.now ≤ length dst.old }
    ensures { dst.new ≡ src.now ++ drop (length src.now) dst.old }
{
    let n = src.len();
    dst[..n].copy_from_slice(src);
}
