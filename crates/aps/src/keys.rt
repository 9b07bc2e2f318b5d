// Which key protects a frame (document 01, Protection).
ghost use Rattle.std.specs.Prelude.{◌≡◌, [], ◌∷◌, Some};
ghost use Rattle.primitives.specs.KeyedHash.{keyed_hash};
ghost use Rattle.protection.specs.Keys.{key_for, key_chosen};

use control::KeyIdentifier;

#[tactic(auto, unfolding(primitives::specs::Limits::keyed_hashing))]
fn hashed(link: [u8; 16], octet: u8) -> [u8; 16]
    ensures { result ≡ keyed_hash link (octet ∷ []) }
{
    primitives::keyed_hash(&link, &[octet]).unwrap()
}

// The link key itself, or its hash for carrying keys. The network key is NWK's, and no other.
#[tactic(auto, unfolding(protection::specs::Keys::key_for))]
pub(crate) fn key_for(identifier: KeyIdentifier, link: [u8; 16]) -> Option<[u8; 16]>
    ensures { result ≡ key_chosen (key_for identifier link) }
{
    match identifier {
        KeyIdentifier::Link => Some(link),
        KeyIdentifier::Network => None,
        KeyIdentifier::Transport => Some(hashed(link, 0x00)),
        KeyIdentifier::Load => Some(hashed(link, 0x02)),
    }
}
