// Searches for a device's row: each takes the first that matches. A count above 16 finds in the 16 rows that there are.
// Each is one closure; a function that is handed the test would carry its statement, and be longer than the two.
ghost use Rattle.std.specs.Prelude.{◌≡◌, length, position, take};
ghost use Rattle.cells.specs.Rows.{is_row};
ghost use Rattle.aib.specs.Pairs.{pair_rows, may_use, pair_found, usable_found};

use crate::pairs::{PairRow, Pairs};

// The rows in use: no more than there are.
fn in_use(pairs: &Pairs) -> &[PairRow]
    ensures { result.now ≡ take pairs.now.used pairs.now.rows }
{
    let used = pairs.used.min(16);
    &pairs.rows[..used]
}

// The place of the device's first row.
pub(crate) fn place_of(pairs: &Pairs, device: u64) -> Option<usize>
    ensures { result ≡ position (is_row pair_rows device) (take pairs.now.used pairs.now.rows) }
{
    in_use(pairs).iter().position(|row| row.device == device)
}

// The place of the device's first row by which a frame may be sent.
pub(crate) fn usable_place(pairs: &Pairs, device: u64) -> Option<usize>
    ensures { result ≡ position (may_use device) (take pairs.now.used pairs.now.rows) }
{
    in_use(pairs).iter().position(|row| row.sends_to(device))
}

// The row by which a frame from the device is opened. `sixteen` says again what the type of the rows does: callers take it from here.
pub fn find(pairs: &Pairs, device: u64) -> Option<PairRow>
    ensures row { result ≡ pair_found pairs.now device }
    ensures sixteen { length pairs.now.rows ≡ 16 }
{
    in_use(pairs)
        .iter()
        .find(|row| row.device == device)
        .copied()
}

// The row by which a frame to the device is secured.
pub fn usable(pairs: &Pairs, device: u64) -> Option<PairRow>
    ensures { result ≡ usable_found pairs.now device }
{
    in_use(pairs)
        .iter()
        .find(|row| row.sends_to(device))
        .copied()
}
