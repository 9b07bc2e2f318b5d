// The counter rows and the outgoing counter by value, for callers that lend no struct. A function over rows lends its own copy to
// the function of the same name in `counter_rows`, and hands the copy back. What may not change holds these beside those: callers of both
// forms name them (docs/PROMISES.md, by_value).
#![tactic(auto)]

ghost use Rattle.std.specs.Prelude.{◌≡◌};
ghost use Rattle.nib.specs.Counters.{pair, held_for, recorded, settled, forgotten};
ghost use Rattle.nib.specs.Sending.{taken};
ghost use Rattle.by_value.specs.With.{left_with, took_with};

use answer::Refusal;
use counter_rows::{forget, held, settle};
use nib::{CounterRow, Outgoing, Standing};

// Of the rows the first `used` are in use. A count beside the rows and no Vec: no heap, fixed memory is a rule of the project.
#[derive(Clone, Copy, Debug, PartialEq, Eq)]
pub struct CounterTable {
    pub rows: [CounterRow; 64],
    pub used: usize,
}

// `settle`: the table after it.
pub fn settle_with(
    mut table: CounterTable,
    change: Option<CounterRow>,
) -> Result<CounterTable, Refusal>
    ensures { left_with result table ≡ settled table.rows table.used change }
{
    let used = table.used;
    table.used = settle(&mut table.rows, used, change)?;
    Ok(table)
}

// The row of a key number and sender holds the counter now; a new row goes after the last.
pub fn record_with(
    table: CounterTable,
    number: u8,
    sender: u64,
    counter: u32,
) -> Result<CounterTable, Refusal>
    ensures { left_with result table ≡ recorded table.rows table.used (pair number sender) counter }
{
    let row = nib::recorded_row(number, sender, counter);
    settle_with(table, Some(row))
}

// `forget`: the table after it.
pub fn forget_with(mut table: CounterTable, number: u8) -> Result<CounterTable, Refusal>
    ensures { left_with result table ≡ forgotten table.rows table.used number }
{
    let used = table.used;
    table.used = forget(&mut table.rows, used, number)?;
    Ok(table)
}

// `held`, of the table.
pub fn held_with(table: &CounterTable, number: u8, sender: u64) -> Standing
    ensures { result ≡ held_for table.now.rows table.now.used (pair number sender) }
{
    held(&table.rows, table.used, number, sender)
}

// The next counter, and the record that is left. The last counter is never handed out.
pub fn take_with(outgoing: Outgoing) -> Result<(u32, Outgoing), Refusal>
    ensures { took_with result outgoing ≡ taken outgoing }
{
    if !nib::usable(outgoing) {
        return Err(Refusal::CounterExhausted);
    }
    let counter = outgoing.next;
    Ok((counter, nib::sending(counter + 1)))
}
