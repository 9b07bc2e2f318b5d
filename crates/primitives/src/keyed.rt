// RFC 2104, section 2: the keyed hash.
ghost use Rattle.std.specs.Prelude.{◌≡◌, ◌-◌, ◌≤◌, length, replicate};
ghost use Rattle.laws.specs.Octets.{◌⊕◌};
ghost use Rattle.answer.specs.Numbers.{giving};
ghost use Rattle.mmo.specs.Stream.{limit, hashing};
ghost use Rattle.primitives.specs.KeyedHash.{key_block, keyed_hash};
ghost use Rattle.primitives.specs.Limits.{keyed_hashing};

use crate::messages::{begun, ended};
use answer::Refusal;
use tables::CipherTables;

// The key as one block.
fn key_block(key: &[u8], tables: CipherTables) -> Result<[u8; 16], Refusal>
    ensures { result ≡ giving (hashing (length key.now)) (key_block key.now) }
{
    if 16 < key.len() {
        return ended(mmo::hash_start(), key, tables);
    }
    Ok(mmo::first_block(key))
}

// K XOR ipad, K XOR opad: a block XORed with one byte, repeated.
fn masked(block: [u8; 16], byte: u8) -> [u8; 16]
    ensures { result ≡ block ⊕ replicate 16 byte }
{
    let mut x = block;
    octets::xor_into(&mut x, &[byte; 16]);
    x
}

// The keyed hash: each of the two hashes begins with a masked key, one whole block, and goes on from there. A text is asked to be short
// enough, so that none is refused when its key has been hashed.
pub(crate) fn keyed_with(key: &[u8], text: &[u8], tables: CipherTables) -> Result<[u8; 16], Refusal>
    requires { length text.now ≤ limit - 16 }
    ensures { result ≡ giving (keyed_hashing (length key.now) (length text.now)) (keyed_hash key.now text.now) }
{
    let k = key_block(key, tables)?;
    let x = begun(masked(k, 0x36), tables);
    let inner = ended(x, text, tables).unwrap();
    let y = begun(masked(k, 0x5c), tables);
    ended(y, &inner, tables)
}
