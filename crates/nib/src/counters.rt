// The counters heard (ZB table 4-4; document 01, 'The state'): a row for each key number and sender, with the counter of the last
// frame that opened. The rows are the caller's, lent as a slice; the first `used` of them are in use. The crate `counter_rows`
// looks into them and changes them.
ghost use Rattle.std.specs.Prelude.{◌≡◌};
ghost use Rattle.nib.specs.Counters.{capacity, empty, counting, row_of, pair};

#[repr(C)]
#[derive(Clone, Copy, Debug, PartialEq, Eq)]
pub struct CounterRow {
    pub number: u8,
    pub sender: u64,
    pub counter: u32,
}

// What is held for a key number and sender: a row; or none, with room for a new one; or none and no room. A row without room to be
// written again is what no search answers, since a row that is held needs none; `judging::judge` takes it all the same.
#[derive(Clone, Copy, Debug, PartialEq, Eq)]
pub enum Standing {
    Held(CounterRow),
    Free,
    Full,
    HeldWithoutRoom(CounterRow),
}

// How many rows may be in use: 64, or as many as are lent if less.
pub fn capacity(lent: usize) -> usize
    ensures { result ≡ capacity lent }
{
    lent.min(64)
}

// Zeros.
pub fn empty_row() -> CounterRow
    ensures { result ≡ empty }
{
    CounterRow {
        number: 0,
        sender: 0,
        counter: 0,
    }
}

// A row that holds this counter and nothing else.
pub fn recorded_row(number: u8, sender: u64, counter: u32) -> CounterRow
    ensures { result ≡ row_of (pair number sender) (counting counter) }
{
    CounterRow {
        number,
        sender,
        counter,
    }
}
