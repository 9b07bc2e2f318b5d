// Annex B.6, the output: each block is enciphered under the value so far, and XORed into what comes out.
ghost use Rattle.std.specs.Prelude.{◌≡◌};
ghost use Rattle.laws.specs.Blocks.{blocks};
ghost use Rattle.mmo.specs.Hash.{step, steps, filled};

use tables::CipherTables;

// The first 16 bytes of s; where there are fewer, zeros follow them.
pub fn first_block(s: &[u8]) -> [u8; 16]
    ensures { result ≡ filled s.now }
{
    let mut x = [0u8; 16];
    octets::xor_into(&mut x, s);
    x
}

// One block, with the tables of AES lent.
#[tactic(auto, unfolding(crate::specs::Hash::step))]
pub(crate) fn step(h: [u8; 16], x: [u8; 16], tables: CipherTables) -> [u8; 16]
    ensures { result ≡ step h x }
{
    let keys = aes::expand_with(tables.substitution, h);
    let mut y = aes::encipher(tables.round, &keys, x);
    octets::xor_into(&mut y, &x);
    y
}

// From h over the blocks of s, the last filled up with zeros.
pub(crate) fn run(h: [u8; 16], s: &[u8], tables: CipherTables) -> [u8; 16]
    ensures { result ≡ steps h (blocks s.now) }
{
    let mut y = h;
    for block in s.chunks(16) {
        let next = step(y, first_block(block), tables);
        y = next;
    }
    y
}
