// Blocks of sixteen bytes held as four words of four bytes, the first byte lowest: what AES calls a state, its columns the words.
#![tactic(auto)]

ghost use Rattle.std.specs.Prelude.{◌≡◌, [], ◌∷◌};
ghost use Rattle.laws.specs.Octets.{◌⊕◌};
ghost use Rattle.words.specs.Words.{bytes, block_of};

// No Debug and no PartialEq: round keys stand in such states.
#[derive(Clone, Copy)]
pub struct State {
    pub a: u32,
    pub b: u32,
    pub c: u32,
    pub d: u32,
}

// The word of four bytes.
pub fn joined(a: u8, b: u8, c: u8, d: u8) -> u32
    ensures { bytes result ≡ a ∷ b ∷ c ∷ d ∷ [] }
{
    u32::from_le_bytes([a, b, c, d])
}

// Two words, added byte by byte (FIPS 197, 4.1: addition is XOR).
pub fn xored(a: u32, b: u32) -> u32
    ensures { bytes result ≡ bytes a ⊕ bytes b }
{
    a ^ b
}

// Two states, added byte by byte.
pub fn added(s: State, t: State) -> State
    ensures { block_of result ≡ block_of s ⊕ block_of t }
{
    State {
        a: xored(s.a, t.a),
        b: xored(s.b, t.b),
        c: xored(s.c, t.c),
        d: xored(s.d, t.d),
    }
}

pub fn state_of(block: [u8; 16]) -> State
    ensures { block_of result ≡ block }
{
    State {
        a: joined(block[0], block[1], block[2], block[3]),
        b: joined(block[4], block[5], block[6], block[7]),
        c: joined(block[8], block[9], block[10], block[11]),
        d: joined(block[12], block[13], block[14], block[15]),
    }
}

pub fn block_of(s: State) -> [u8; 16]
    ensures { result ≡ block_of s }
{
    let [a0, a1, a2, a3] = s.a.to_le_bytes();
    let [b0, b1, b2, b3] = s.b.to_le_bytes();
    let [c0, c1, c2, c3] = s.c.to_le_bytes();
    let [d0, d1, d2, d3] = s.d.to_le_bytes();
    [
        a0, a1, a2, a3, b0, b1, b2, b3, c0, c1, c2, c3, d0, d1, d2, d3,
    ]
}
