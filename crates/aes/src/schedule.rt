// FIPS 197, 5.2: key expansion.
ghost use Rattle.std.specs.Prelude.{◌≡◌, ◌++◌, ◌+◌, ◌*◌, ◌<◌, ◌≤◌, length};
ghost use Rattle.tables.specs.Field.{sbox, round_constant};
ghost use Rattle.aes.specs.Schedule.{xor_word, rot_word, sub_word, rcon, key_expansion};
ghost use Rattle.words.specs.Words.{bytes, block_of};
ghost use Rattle.aes.specs.Words.{word_bytes, key_bytes};

use tables::SubstitutionTable;
use words::{State, joined, state_of, xored};

fn round_constant(n: usize) -> u8
    requires { n < 10 }
    ensures { result ≡ round_constant n }
{
    tables::ROUND_CONSTANTS[n]
}

fn substituted(table: SubstitutionTable, x: u8) -> u8
    ensures { result ≡ sbox x }
{
    table.bytes[x as usize]
}

// What a round key's first word is XORed with, for the last word q of the round key before it: rotated, substituted, and round
// constant n added.
fn turned(table: SubstitutionTable, q: u32, n: usize) -> u32
    requires { n < 10 }
    ensures { bytes result ≡ xor_word (sub_word (rot_word (bytes q))) (rcon (n + 1)) }
{
    let [a, b, c, d] = q.to_le_bytes();
    joined(
        substituted(table, b) ^ round_constant(n),
        substituted(table, c),
        substituted(table, d),
        substituted(table, a),
    )
}

// Round key n + 1, from round key n.
fn next_key(table: SubstitutionTable, k: State, n: usize) -> State
    requires { n < 10 }
    ensures a { bytes result.a ≡ xor_word (bytes k.a) (xor_word (sub_word (rot_word (bytes k.d))) (rcon (n + 1))) }
    ensures b { bytes result.b ≡ xor_word (bytes k.b) (bytes result.a) }
    ensures c { bytes result.c ≡ xor_word (bytes k.c) (bytes result.b) }
    ensures d { bytes result.d ≡ xor_word (bytes k.d) (bytes result.c) }
{
    let a = xored(k.a, turned(table, k.d, n));
    let b = xored(k.b, a);
    let c = xored(k.c, b);
    let d = xored(k.d, c);
    State { a, b, c, d }
}

// Round key n, put after those before it.
fn put(w: &mut [u32], n: usize, k: State)
    requires { (n < 11) × (4 * n + 4 ≤ length w.old) }
    ensures { word_bytes w.new (4 * n + 4) ≡ word_bytes w.old (4 * n) ++ block_of k }
{
    w[4 * n] = k.a;
    w[4 * n + 1] = k.b;
    w[4 * n + 2] = k.c;
    w[4 * n + 3] = k.d;
}

// The eleven round keys, one after the other, with the substitution table lent. The last one is kept beside the array: reading
// back what was just stored is slower.
pub fn expand_with(table: SubstitutionTable, key: [u8; 16]) -> [u32; 44]
    ensures { key_bytes result ≡ key_expansion key }
{
    let mut w = [0u32; 44];
    let mut k = state_of(key);
    for n in 0..10 {
        put(&mut w, n, k);
        k = next_key(table, k, n);
    }
    put(&mut w, 10, k);
    w
}

// The same, with the table named here (docs/PROMISES.md has both forms).
pub fn expand(key: [u8; 16]) -> [u32; 44]
    ensures { key_bytes result ≡ key_expansion key }
{
    expand_with(tables::substitution_table(), key)
}
