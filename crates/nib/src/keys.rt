// The network keys (ZB table 4-3; document 01, 'The state'): at most two, the active one and the next.
// No Debug and no PartialEq: a key is not printed, and is not compared byte by byte up to the first difference.
ghost use Rattle.std.specs.Prelude.{◌≡◌};
ghost use Rattle.nib.specs.Keys.{key_row, key_found, key_under};

#[repr(C)]
#[derive(Clone, Copy)]
pub struct NetworkKey {
    pub number: u8,
    pub key: [u8; 16],
}

// Of the rows the first `used` are in use. Rows with a count beside them: the C interface holds it (pouchkettle_open_nwk's Nwk).
#[repr(C)]
#[derive(Clone, Copy)]
pub struct NetworkKeys {
    pub rows: [NetworkKey; 2],
    pub used: usize,
}

// A row of this number, with this key.
pub fn key_row(number: u8, key: [u8; 16]) -> NetworkKey
    ensures { result ≡ key_row number key }
{
    NetworkKey { number, key }
}

// The first row of that number. A count above two finds in the two rows that there are.
pub fn key_of(keys: NetworkKeys, number: u8) -> Option<NetworkKey>
    ensures { result ≡ key_found keys number }
{
    let used = keys.used.min(2);
    keys.rows[..used]
        .iter()
        .find(|row| row.number == number)
        .copied()
}

// The key of that number; zeros where there is none, for callers that have found a row of it before: they have no way to refuse.
pub fn key_under(keys: NetworkKeys, number: u8) -> [u8; 16]
    ensures { result ≡ key_under keys number }
{
    match key_of(keys, number) {
        Some(row) => row.key,
        None => [0; 16],
    }
}
