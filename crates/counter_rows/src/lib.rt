// The counters heard, in the caller's rows (document 01, 'The state' and 'Called alone'; ZB table 4-4). The rows are lent as a slice
// of structs, of which the first `used` are in use. Rows and count come apart: the C interface holds it (pouchkettle_open_nwk).
#![tactic(auto)]

ghost use Rattle.std.specs.Prelude.{◌≡◌, position};
ghost use Rattle.cells.specs.Rows.{is_row};
ghost use Rattle.nib.specs.Counters.{counter_rows, pair, left, held_for, settled, forgotten};

use answer::Refusal;
use nib::{CounterRow, Standing, capacity, empty_row};

// The place of the first row of that number and sender.
fn place_of(rows: &[CounterRow], number: u8, sender: u64) -> Option<usize>
    ensures { result ≡ position (is_row counter_rows (pair number sender)) rows.now }
{
    rows.iter()
        .position(|row| row.number == number && row.sender == sender)
}

// The row held for a key number and sender. With more rows in use than there may be: no room and nothing held.
pub fn held(rows: &[CounterRow], used: usize, number: u8, sender: u64) -> Standing
    ensures { result ≡ held_for rows.now used (pair number sender) }
{
    let places = capacity(rows.len());
    if places < used {
        return Standing::Full;
    }
    match place_of(&rows[..used], number, sender) {
        Some(at) => Standing::Held(rows[at]),
        None if used < places => Standing::Free,
        None => Standing::Full,
    }
}

// A row that is written stands where its pair had one, or after the last. Answered is how many rows are in use then; a refusal
// leaves the rows and the count as they were.
pub fn settle(
    rows: &mut [CounterRow],
    used: usize,
    change: Option<CounterRow>,
) -> Result<usize, Refusal>
    ensures { left result used rows.new ≡ settled rows.old used change }
{
    let Some(row) = change else {
        return Ok(used);
    };
    let places = capacity(rows.len());
    if places < used {
        return Err(Refusal::Unsupported);
    }
    match place_of(&rows[..used], row.number, row.sender) {
        Some(at) => {
            rows[at] = row;
            Ok(used)
        }
        None if used < places => {
            rows[used] = row;
            Ok(used + 1)
        }
        None => Err(Refusal::TableFull),
    }
}

// Every row of a key number goes: the others move up, in order, and zeros stand in the places given up. Answered is how many stay;
// a refusal leaves the rows and the count as they were.
pub fn forget(rows: &mut [CounterRow], used: usize, number: u8) -> Result<usize, Refusal>
    ensures { left result used rows.new ≡ forgotten rows.old used number }
{
    if capacity(rows.len()) < used {
        return Err(Refusal::Unsupported);
    }
    // By places, since each turn reads one row and writes another.
    let empty = empty_row();
    let mut kept: usize = 0;
    for i in 0..used {
        let row = rows[i];
        rows[i] = empty;
        if row.number != number {
            rows[kept] = row;
            kept += 1;
        }
    }
    Ok(kept)
}
