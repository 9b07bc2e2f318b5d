// RFC 3610, 2.3: the key stream S_0, S_1, ..
ghost use Rattle.std.specs.Prelude.{◌≡◌};
ghost use Rattle.laws.specs.Octets.{◌⊕◌};
ghost use Rattle.words.specs.Words.{block_of};
ghost use Rattle.aes.specs.Words.{cipher_words};
ghost use Rattle.ccm.specs.Ccm.{block, counted};

use crate::blocks::{make_block, xor_block};
use crate::cipher::Cipher;
use words::{State, added, block_of};

impl Cipher<'_> {
    // S_i.
    fn key_block(&self, i: usize) -> State
        ensures { block_of result ≡ cipher_words self.now.keys.now (block 1 self.now.nonce i) }
    {
        aes::encipher_state(self.table, self.keys, make_block(1, self.nonce, i))
    }

    // s XORed in place with S_1, S_2, ..: enciphers, and deciphers.
    pub(crate) fn count_through(&self, s: &mut [u8])
        ensures { s.new ≡ counted (cipher_words self.now.keys.now) self.now.nonce 1 s.old }
    {
        // By places: std says nothing of what is written through `chunks_mut`.
        for i in 0..s.len().div_ceil(16) {
            let k = self.key_block(i + 1);
            xor_block(&mut s[16 * i..], k);
        }
    }

    // The MAC x under S_0: its first bytes are the tag.
    pub(crate) fn tag_of(&self, x: State) -> [u8; 16]
        ensures { result ≡ block_of x ⊕ cipher_words self.now.keys.now (block 1 self.now.nonce 0) }
    {
        let k = self.key_block(0);
        block_of(added(x, k))
    }
}
