// The public calls: they ask nothing, and refuse.
ghost use Rattle.std.specs.Prelude.{◌≡◌, length};
ghost use Rattle.answer.specs.Numbers.{giving};
ghost use Rattle.mmo.specs.Hash.{hash, hash_from, filled};
ghost use Rattle.mmo.specs.Stream.{hashing};
ghost use Rattle.primitives.specs.KeyedHash.{keyed_hash};
ghost use Rattle.primitives.specs.Limits.{keyed_hashing};

use crate::keyed::keyed_with;
use crate::messages::ended;
use answer::Refusal;

// The hash of a message.
pub fn hash(message: &[u8]) -> Result<[u8; 16], Refusal>
    ensures { result ≡ giving (hashing (length message.now)) (hash message.now) }
{
    let zero = [0u8; 16];
    hash_from(&zero, message)
}

// The hash of a message from an initial block of the caller's, cut or filled with zeros to 16 bytes.
pub fn hash_from(initial: &[u8], message: &[u8]) -> Result<[u8; 16], Refusal>
    ensures { result ≡ giving (hashing (length message.now)) (hash_from (filled initial.now) message.now) }
{
    let start = mmo::hash_start_from(initial);
    ended(start, message, tables::cipher_tables())
}

// The keyed hash of a text. One that is too long is refused before its key is hashed: a refusal costs the same for every key.
#[tactic(auto, using(crate::proofs::KeyedLaws::keyed_text))]
pub fn keyed_hash(key: &[u8], text: &[u8]) -> Result<[u8; 16], Refusal>
    ensures { result ≡ giving (keyed_hashing (length key.now) (length text.now)) (keyed_hash key.now text.now) }
{
    if 536870895 < text.len() {
        return Err(Refusal::Unsupported);
    }
    keyed_with(key, text, tables::cipher_tables())
}
