// FIPS 197, 5.1: one block. SubBytes, ShiftRows and MixColumns of a column are four entries of the round table, added.
ghost use Rattle.std.specs.Prelude.{◌≡◌, [], ◌∷◌, ◌<◌};
ghost use Rattle.laws.specs.Parts.{listed};
ghost use Rattle.tables.specs.Field.{sbox};
ghost use Rattle.tables.specs.Rounds.{products, twice};
ghost use Rattle.aes.specs.Cipher.{sub_bytes, shift_rows, mix_column, mix_columns, add_round_key, cipher};
ghost use Rattle.aes.specs.Schedule.{xor_word};
ghost use Rattle.words.specs.Words.{bytes, byte_of, block_of};
ghost use Rattle.aes.specs.Words.{key_bytes};

use tables::RoundTable;
use words::{State, block_of, joined, state_of, xored};

// Four bytes of the entry for x, from byte i on: its column turned by as many rows.
fn entry(table: RoundTable, x: u8, i: usize) -> u32
    requires { i < 5 }
    ensures { bytes result ≡ listed 4 i (twice (products (sbox x))) }
{
    let at = 8 * (x as usize) + i;
    joined(
        table.bytes[at],
        table.bytes[at + 1],
        table.bytes[at + 2],
        table.bytes[at + 3],
    )
}

// The substituted byte: every entry has it as its second.
fn substituted(table: RoundTable, x: u8) -> u8
    ensures { result ≡ sbox x }
{
    table.bytes[8 * (x as usize) + 1]
}

// A column of the next state, from the columns that ShiftRows takes its four bytes from.
fn column(table: RoundTable, a: u32, b: u32, c: u32, d: u32, key: u32) -> u32
    ensures { bytes result ≡ xor_word (mix_column (sbox (byte_of a 0)) (sbox (byte_of b 1)) (sbox (byte_of c 2)) (sbox (byte_of d 3))) (bytes key) }
{
    let p = entry(table, a.to_le_bytes()[0], 0);
    let q = entry(table, b.to_le_bytes()[1], 3);
    let r = entry(table, c.to_le_bytes()[2], 2);
    let s = entry(table, d.to_le_bytes()[3], 1);
    xored(xored(xored(xored(p, q), r), s), key)
}

// The same in the last round, which has no MixColumns. One function for both is no plainer: it would be passed how a byte becomes a word,
// and what four of those make, which is all that either does.
fn last_column(table: RoundTable, a: u32, b: u32, c: u32, d: u32, key: u32) -> u32
    ensures { bytes result ≡ xor_word (sbox (byte_of a 0) ∷ sbox (byte_of b 1) ∷ sbox (byte_of c 2) ∷ sbox (byte_of d 3) ∷ []) (bytes key) }
{
    xored(
        joined(
            substituted(table, a.to_le_bytes()[0]),
            substituted(table, b.to_le_bytes()[1]),
            substituted(table, c.to_le_bytes()[2]),
            substituted(table, d.to_le_bytes()[3]),
        ),
        key,
    )
}

// What each round works with.
#[derive(Clone, Copy)]
struct KeyedRounds<'a> {
    table: RoundTable<'a>,
    keys: &'a [u32; 44],
}

impl KeyedRounds<'_> {
    // A state, and the first round key added to it.
    fn begun(self, s: State) -> State
        ensures { block_of result ≡ add_round_key (block_of s) (key_bytes self.entry.keys.now) 0 }
    {
        State {
            a: xored(s.a, self.keys[0]),
            b: xored(s.b, self.keys[1]),
            c: xored(s.c, self.keys[2]),
            d: xored(s.d, self.keys[3]),
        }
    }

    // Round n, of those that have MixColumns.
    fn round(self, s: State, n: usize) -> State
        requires { n < 11 }
        ensures { block_of result ≡ add_round_key (mix_columns (shift_rows (sub_bytes (block_of s)))) (key_bytes self.entry.keys.now) n }
    {
        let table = self.table;
        State {
            a: column(table, s.a, s.b, s.c, s.d, self.keys[4 * n]),
            b: column(table, s.b, s.c, s.d, s.a, self.keys[4 * n + 1]),
            c: column(table, s.c, s.d, s.a, s.b, self.keys[4 * n + 2]),
            d: column(table, s.d, s.a, s.b, s.c, self.keys[4 * n + 3]),
        }
    }

    // The last round.
    fn ended(self, s: State) -> State
        ensures { block_of result ≡ add_round_key (shift_rows (sub_bytes (block_of s))) (key_bytes self.entry.keys.now) 10 }
    {
        let table = self.table;
        State {
            a: last_column(table, s.a, s.b, s.c, s.d, self.keys[40]),
            b: last_column(table, s.b, s.c, s.d, s.a, self.keys[41]),
            c: last_column(table, s.c, s.d, s.a, s.b, self.keys[42]),
            d: last_column(table, s.d, s.a, s.b, s.c, self.keys[43]),
        }
    }
}

// One block as four columns, with the round table lent. The nine rounds are written out.
// Tried: a loop over them misses a bar of speed: it takes 0.706 of mbedTLS in bench/ccm, and 0.70 is asked.
pub fn encipher_state(table: RoundTable, keys: &[u32; 44], s: State) -> State
    ensures { block_of result ≡ cipher (key_bytes keys.now) (block_of s) }
{
    let rounds = KeyedRounds { table, keys };
    let s0 = rounds.begun(s);
    let s1 = rounds.round(s0, 1);
    let s2 = rounds.round(s1, 2);
    let s3 = rounds.round(s2, 3);
    let s4 = rounds.round(s3, 4);
    let s5 = rounds.round(s4, 5);
    let s6 = rounds.round(s5, 6);
    let s7 = rounds.round(s6, 7);
    let s8 = rounds.round(s7, 8);
    let s9 = rounds.round(s8, 9);
    rounds.ended(s9)
}

// One block as sixteen bytes.
pub fn encipher(table: RoundTable, keys: &[u32; 44], block: [u8; 16]) -> [u8; 16]
    ensures { result ≡ cipher (key_bytes keys.now) block }
{
    block_of(encipher_state(table, keys, state_of(block)))
}

// One block, with the table named here (docs/PROMISES.md has both forms).
pub fn encrypt(keys: &[u32; 44], block: [u8; 16]) -> [u8; 16]
    ensures { result ≡ cipher (key_bytes keys.now) block }
{
    encipher(tables::round_table(), keys, block)
}
