// The counters of a pair (document 01, 'Called alone').
ghost use Rattle.std.specs.Prelude.{◌≡◌};
ghost use Rattle.aib.specs.Counters.{raised, advancing, recording, advanced, recorded};

use crate::pairs::{PairRow, Pairs, new_row};
use crate::search::{place_of, usable_place};
use answer::Refusal;

// The row with the next outgoing counter.
fn raise(mut row: PairRow) -> PairRow
    requires { row.outgoing ≡ 4294967295 → ⊥ }
    ensures { result ≡ raised row }
{
    row.outgoing += 1;
    row
}

// The outgoing counter is taken from the row by which securing would send, and its next is left there. A refusal leaves the pairs
// as they were.
pub fn advance(pairs: &mut Pairs, device: u64) -> Result<u32, Refusal>
    ensures { advancing result pairs.new ≡ advanced pairs.old device }
{
    if 16 < pairs.used {
        return Err(Refusal::Unsupported);
    }
    let Some(at) = usable_place(pairs, device) else {
        return Err(Refusal::NoPair);
    };
    let row = pairs.rows[at];
    let counter = row.outgoing;
    if counter == 4294967295 {
        return Err(Refusal::CounterSpent);
    }
    pairs.rows[at] = raise(row);
    Ok(counter)
}

// The device's row holds the counter as its incoming one now; a device not known gets a row after the last. A refusal leaves the
// pairs as they were.
pub fn record(pairs: &mut Pairs, device: u64, counter: u32) -> Result<(), Refusal>
    ensures { recording result pairs.new ≡ recorded pairs.old device counter }
{
    let used = pairs.used;
    if 16 < used {
        return Err(Refusal::Unsupported);
    }
    match place_of(pairs, device) {
        Some(at) => {
            let mut row = pairs.rows[at];
            row.incoming = counter;
            pairs.rows[at] = row;
            Ok(())
        }
        None if used < 16 => {
            pairs.rows[used] = new_row(device, counter);
            pairs.used = used + 1;
            Ok(())
        }
        None => Err(Refusal::TableFull),
    }
}
