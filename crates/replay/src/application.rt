// The calls of `aps` and `aib`.
use crate::asked::Case;
use crate::classes::aps_class;
use crate::gateway::{pairs_of, tell_pairs};
use crate::parts::{blanked, laid};
use crate::telling::{Line, NUMBERS};
use aps::Aps;

fn aps_of(case: &Case<'_>) -> Aps {
    Aps {
        level: case.head.level,
        own: case.head.own,
    }
}

pub(crate) fn open(case: &Case<'_>, space: &mut [u8], line: Line<'_>) {
    let Some(frame) = laid(case.first, space) else {
        return line.text("bad\n");
    };
    let mut pairs = pairs_of(case);
    let opened = aps::open_aps(aps_of(case), &mut pairs, frame);
    line.answer(opened, aps_class);
    line.none(NUMBERS);
    tell_pairs(line, &pairs);
    line.bytes(frame);
}

pub(crate) fn secure(case: &Case<'_>, space: &mut [u8], line: Line<'_>) {
    let head = case.head;
    let Some(out) = blanked(space, head.room) else {
        return line.text("bad\n");
    };
    let mut pairs = pairs_of(case);
    let secured = aps::secure_aps(
        aps_of(case),
        &mut pairs,
        head.device,
        head.extended,
        case.first,
        out,
    );
    line.answer(secured, aps_class);
    line.none(NUMBERS);
    tell_pairs(line, &pairs);
    line.bytes(out);
}

pub(crate) fn advance(case: &Case<'_>, line: Line<'_>) {
    let mut pairs = pairs_of(case);
    let taken = aib::advance(&mut pairs, case.head.device);
    line.outcome(taken.map(|_| ()), aps_class);
    line.number(taken.unwrap_or(0) as u64);
    tell_pairs(line, &pairs);
    line.bytes(&[]);
}

pub(crate) fn record(case: &Case<'_>, line: Line<'_>) {
    let mut pairs = pairs_of(case);
    let recorded = aib::record(&mut pairs, case.head.device, case.head.counter);
    line.outcome(recorded, aps_class);
    line.none(NUMBERS);
    tell_pairs(line, &pairs);
    line.bytes(&[]);
}
