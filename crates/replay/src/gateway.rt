// The tables of a case, and how they are told.
use crate::asked::Case;
use crate::parts::{bytes_at, eight, four, octet};
use crate::telling::{Line, ROWS};
use aib::{PairRow, Pairs};
use by_value::CounterTable;
use nib::{CounterRow, NetworkKey, NetworkKeys};

fn key_in(s: &[u8]) -> NetworkKey {
    nib::key_row(octet(s, 0), bytes_at(s, 1))
}

pub(crate) fn keys_of(case: &Case<'_>) -> NetworkKeys {
    let mut rows = [nib::key_row(0, [0; 16]); 2];
    for (row, s) in rows.iter_mut().zip(case.keys.chunks(17)) {
        *row = key_in(s);
    }
    NetworkKeys {
        rows,
        used: case.head.keys as usize,
    }
}

fn row_in(s: &[u8]) -> CounterRow {
    nib::recorded_row(octet(s, 0), eight(s, 1), four(s, 9))
}

pub(crate) fn table_of(case: &Case<'_>) -> CounterTable {
    let mut rows = [nib::empty_row(); 64];
    for (row, s) in rows.iter_mut().zip(case.rows.chunks(13)) {
        *row = row_in(s);
    }
    CounterTable {
        rows,
        used: case.head.rows as usize,
    }
}

fn pair_in(s: &[u8]) -> PairRow {
    PairRow {
        device: eight(s, 0),
        attribute: octet(s, 8),
        key: bytes_at(s, 9),
        kind: octet(s, 25),
        outgoing: four(s, 26),
        incoming: four(s, 30),
    }
}

pub(crate) fn pairs_of(case: &Case<'_>) -> Pairs {
    let mut rows = [pair_in(&[]); 16];
    for (row, s) in rows.iter_mut().zip(case.pairs.chunks(34)) {
        *row = pair_in(s);
    }
    Pairs {
        rows,
        used: case.head.pairs as usize,
    }
}

fn tell_row(line: Line<'_>, row: CounterRow) {
    let CounterRow {
        number,
        sender,
        counter,
    } = row;
    let mut octets = [number; 13];
    octets[1..9].copy_from_slice(&sender.to_be_bytes());
    octets[9..].copy_from_slice(&counter.to_be_bytes());
    line.octets(&octets);
}

pub(crate) fn tell_table(line: Line<'_>, table: &CounterTable) {
    if !line.shows(ROWS) || table.used == 0 {
        return line.none(ROWS);
    }
    line.text(" ");
    for row in table.rows.iter().take(table.used) {
        tell_row(line, *row);
    }
}

fn tell_pair(line: Line<'_>, row: PairRow) {
    let PairRow {
        device,
        attribute,
        key,
        kind,
        outgoing,
        incoming,
    } = row;
    let mut octets = [attribute; 9];
    octets[..8].copy_from_slice(&device.to_be_bytes());
    line.octets(&octets);
    line.octets(&key);
    let mut octets = [kind; 9];
    octets[1..5].copy_from_slice(&outgoing.to_be_bytes());
    octets[5..].copy_from_slice(&incoming.to_be_bytes());
    line.octets(&octets);
}

pub(crate) fn tell_pairs(line: Line<'_>, pairs: &Pairs) {
    if !line.shows(ROWS) || pairs.used == 0 {
        return line.none(ROWS);
    }
    line.text(" ");
    for row in pairs.rows.iter().take(pairs.used) {
        tell_pair(line, *row);
    }
}
