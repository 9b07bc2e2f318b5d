// RFC 3610, 2.2: the CBC-MAC.
ghost use Rattle.std.specs.Prelude.{◌≡◌, ◌++◌, ◌+◌, ◌-◌, ◌*◌, ◌/◌, ◌≤◌, length};
ghost use Rattle.laws.specs.Octets.{◌⊕◌};
ghost use Rattle.laws.specs.Blocks.{be16, blocks};
ghost use Rattle.words.specs.Words.{block_of};
ghost use Rattle.aes.specs.Words.{cipher_words};
ghost use Rattle.ccm.specs.Ccm.{chain, head};

use crate::blocks::{first_block, length_block, make_block};
use crate::cipher::Cipher;
use words::{State, added};

impl Cipher<'_> {
    // One step: the first 16 bytes of s, or as many as there are, XORed into x, and enciphered.
    fn mac_block(&self, x: State, s: &[u8]) -> State
        ensures { block_of result ≡ cipher_words self.now.keys.now (block_of x ⊕ s.now) }
    {
        aes::encipher_state(self.table, self.keys, added(x, first_block(s)))
    }

    // From x over the blocks of s, the last filled up with zeros.
    pub(crate) fn mac_part(&self, x: State, s: &[u8]) -> State
        ensures { block_of result ≡ chain (cipher_words self.now.keys.now) (block_of x) (blocks s.now) }
    {
        let mut y = x;
        for block in s.chunks(16) {
            y = self.mac_block(y, block);
        }
        y
    }

    // The flags of B_0; some is 64 where there are associated data, and 0 where not.
    fn flags(&self, some: u8) -> u8
        requires { some ≤ 64 }
        ensures { result ≡ some + ((self.now.tag_length - 2) / 2 * 8 + 1) }
    {
        some + ((self.tag_length - 2) / 2 * 8 + 1) as u8
    }

    // The first block of the associated data: their length in two bytes, then the data.
    fn first_block(&self, x: State, a: &[u8]) -> State
        ensures { block_of result ≡ cipher_words self.now.keys.now (block_of x ⊕ (be16 (length a.now) ++ a.now)) }
    {
        aes::encipher_state(self.table, self.keys, added(x, length_block(a)))
    }

    // Over B_0 and the associated data a, before a payload of l bytes.
    pub(crate) fn mac_head(&self, a: &[u8], l: usize) -> State
        ensures { block_of result ≡ head (cipher_words self.now.keys.now) self.now.tag_length self.now.nonce a.now l }
    {
        if a.is_empty() {
            let b = make_block(self.flags(0), self.nonce, l);
            return aes::encipher_state(self.table, self.keys, b);
        }
        let b = make_block(self.flags(64), self.nonce, l);
        let x = aes::encipher_state(self.table, self.keys, b);
        let y = self.first_block(x, a);
        let k = a.len().min(14);
        self.mac_part(y, &a[k..])
    }
}
