// The calls on NWK frames and counters, with rows and outgoing counter by value.
use crate::asked::Case;
use crate::classes::nwk_class;
use crate::gateway::{keys_of, table_of, tell_table};
use crate::parts::{blanked, laid};
use crate::telling::{Line, NUMBERS, ROWS};
use answer::Refusal;
use by_value::CounterTable;
use nib::Nwk;

fn nwk_of(case: &Case<'_>) -> Nwk {
    Nwk {
        level: case.head.level,
        own: case.head.own,
        active: case.head.active,
        keys: keys_of(case),
    }
}

pub(crate) fn open(case: &Case<'_>, space: &mut [u8], line: Line<'_>) {
    let Some(frame) = laid(case.first, space) else {
        return line.text("bad\n");
    };
    let opened = nwk_by_value::open_with(nwk_of(case), table_of(case), frame);
    line.answer(opened.answer, nwk_class);
    line.number(opened.active as u64);
    tell_table(line, &opened.table);
    line.bytes(frame);
}

pub(crate) fn secure(case: &Case<'_>, space: &mut [u8], line: Line<'_>) {
    let Some(out) = blanked(space, case.head.room) else {
        return line.text("bad\n");
    };
    let outgoing = nib::sending(case.head.outgoing);
    let secured = nwk_by_value::secure_with(nwk_of(case), outgoing, case.first, out);
    line.answer(secured.answer, nwk_class);
    line.number(secured.outgoing.next as u64);
    line.none(ROWS);
    line.bytes(out);
}

pub(crate) fn take(case: &Case<'_>, line: Line<'_>) {
    let before = nib::sending(case.head.outgoing);
    let taken = by_value::take_with(before);
    line.outcome(taken.map(|_| ()), nwk_class);
    let (counter, outgoing) = taken.unwrap_or((0, before));
    line.number(counter as u64);
    line.next(outgoing.next as u64);
    line.none(ROWS);
    line.bytes(&[]);
}

pub(crate) fn reset(case: &Case<'_>, line: Line<'_>) {
    let outgoing = nib::reset(nib::sending(case.head.outgoing));
    line.number_and_span(0, 0, 0);
    line.number(outgoing.next as u64);
    line.none(ROWS);
    line.bytes(&[]);
}

// What `record` and `forget` leave: of a refusal the table as it was.
fn tell_recorded(recorded: Result<CounterTable, Refusal>, before: CounterTable, line: Line<'_>) {
    line.outcome(recorded.map(|_| ()), nwk_class);
    line.none(NUMBERS);
    tell_table(line, &recorded.unwrap_or(before));
    line.bytes(&[]);
}

pub(crate) fn record(case: &Case<'_>, line: Line<'_>) {
    let table = table_of(case);
    let head = case.head;
    let recorded = by_value::record_with(table, head.number, head.device, head.counter);
    tell_recorded(recorded, table, line);
}

pub(crate) fn forget(case: &Case<'_>, line: Line<'_>) {
    let table = table_of(case);
    let forgotten = by_value::forget_with(table, case.head.number);
    tell_recorded(forgotten, table, line);
}
