// Blocks of 16 octets as four words: read from a string, and added to it.
ghost use Rattle.std.specs.Prelude.{◌≡◌, ◌++◌, ◌+◌, ◌≤◌, length, get_or};
ghost use Rattle.laws.specs.Octets.{◌⊕◌};
ghost use Rattle.laws.specs.Blocks.{be16};
ghost use Rattle.laws.specs.Parts.{listed};
ghost use Rattle.words.specs.Words.{bytes, block_of};
ghost use Rattle.ccm.specs.Ccm.{block};

use octets::xor_into;
use words::{State, added, block_of, joined, state_of};

// Octet i of s, or 0 past its end. (`aps` has this line too, and says why.)
fn octet_at(s: &[u8], i: usize) -> u8
    ensures { result ≡ get_or s.now i 0 }
{
    s.get(i).copied().unwrap_or(0)
}

// Four octets of s from i on, zeros past its end.
fn word_at(s: &[u8], i: usize) -> u32
    requires { i ≤ 12 }
    ensures { bytes result ≡ listed 4 i s.now }
{
    joined(
        octet_at(s, i),
        octet_at(s, i + 1),
        octet_at(s, i + 2),
        octet_at(s, i + 3),
    )
}

// The first block of s, filled up with zeros where it is not whole.
pub(crate) fn first_block(s: &[u8]) -> State
    ensures { block_of result ≡ listed 16 0 s.now }
{
    match s.first_chunk::<16>() {
        Some(block) => state_of(*block),
        None => State {
            a: word_at(s, 0),
            b: word_at(s, 4),
            c: word_at(s, 8),
            d: word_at(s, 12),
        },
    }
}

// A number in two octets, the high one first.
fn two_octets(n: usize) -> [u8; 2]
    ensures { result ≡ be16 n }
{
    ((n % 65536) as u16).to_be_bytes()
}

// The first block of associated data a: their length in two octets, then the data, and zeros where they are short.
pub(crate) fn length_block(a: &[u8]) -> State
    ensures { block_of result ≡ be16 (length a.now) ++ listed 14 0 a.now }
{
    let [high, low] = two_octets(a.len());
    State {
        a: joined(high, low, octet_at(a, 0), octet_at(a, 1)),
        b: word_at(a, 2),
        c: word_at(a, 6),
        d: word_at(a, 10),
    }
}

// The block of flags, nonce and a two-byte number: B_0 and A_i.
pub(crate) fn make_block(flags: u8, nonce: [u8; 13], k: usize) -> State
    ensures { block_of result ≡ block flags nonce k }
{
    let [high, low] = two_octets(k);
    State {
        a: joined(flags, nonce[0], nonce[1], nonce[2]),
        b: joined(nonce[3], nonce[4], nonce[5], nonce[6]),
        c: joined(nonce[7], nonce[8], nonce[9], nonce[10]),
        d: joined(nonce[11], nonce[12], high, low),
    }
}

// k XORed into the first block of s, or into as much as there is of it.
pub(crate) fn xor_block(s: &mut [u8], k: State)
    ensures { s.new ≡ s.old ⊕ block_of k }
{
    if s.len() < 16 {
        let t = block_of(k);
        xor_into(s, &t);
    } else {
        let t = block_of(added(first_block(s), k));
        octets::copy(&t, s);
    }
}
