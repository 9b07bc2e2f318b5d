// Document 01's cases and those of W-207, run through the public functions: a line each, compared with `stdout`. P4's paddings are seen by the hashes of
// messages of those lengths. `stdin` holds the frames one after the other, all of 27 bytes but the last: those of a logger with address
// 0x0011223344556677 under the key 0x40 to 0x4F. tools/cases.py made both files, over OpenSSL's AES and CCM.
#![tactic(auto)]

ghost use Rattle.std.specs.Prelude.{◌≤◌, length};

use aib::{PairRow, Pairs};
use answer::{Refusal, Told};
use aps::Aps;
use by_value::CounterTable;
use control::{Control, KeyIdentifier};
use input::StandardInput;
use mmo::Hashing;
use nib::{NetworkKeys, Nwk};
use std::io;

const LOGGER: u64 = 0x0011223344556677;

const LOGGER_KEY: [u8; 16] = [
    0x40, 0x41, 0x42, 0x43, 0x44, 0x45, 0x46, 0x47, 0x48, 0x49, 0x4a, 0x4b, 0x4c, 0x4d, 0x4e, 0x4f,
];

// How many bytes the frames have together.
const ALL: usize = 215;

// A write that fails is lost, and the next is tried: the lines are compared.
fn lost(written: io::Result<()>) {
    written.is_ok();
}

fn print_octets(rt: &HostRuntime, s: &[u8]) {
    for octet in s {
        lost(print!(rt; " {octet:02x}"));
    }
}

fn controls(rt: &HostRuntime) {
    let sent = Control::sent(KeyIdentifier::Network);
    lost(print!(rt; "P1 NWK control sent, filled:"));
    print_octets(rt, &[sent.byte, sent.filled(5).byte]);
    lost(print!(rt; "\nP2 APS data, transport, load sent:"));
    let data = Control::sent(KeyIdentifier::Link).byte;
    let transport = Control::sent(KeyIdentifier::Transport).byte;
    let load = Control::sent(KeyIdentifier::Load).byte;
    print_octets(rt, &[data, transport, load]);
    lost(print!(rt; "\nP3 nonce:"));
    let nonce = auxiliary_header::nonce(LOGGER, 5, Control { byte: 0x2d });
    print_octets(rt, &nonce);
    lost(print!(rt; "\n"));
}

fn print_value(rt: &HostRuntime, value: Result<[u8; 16], Refusal>) {
    let number = answer::outcome_number(value.map(|_| ()));
    lost(print!(rt; " {number}"));
    print_octets(rt, &value.unwrap_or([0; 16]));
    lost(print!(rt; "\n"));
}

fn hashed(rt: &HostRuntime, name: &str, message: &[u8]) {
    lost(print!(rt; "{name}"));
    print_value(rt, primitives::hash(message));
}

fn paddings(rt: &HostRuntime) {
    let zeros = [0u8; 17];
    for n in 13..18 {
        lost(print!(rt; "P4 hash of {n} zero bytes:"));
        print_value(rt, primitives::hash(&zeros[..n]));
    }
}

fn gateway(active: u8, key_number: u8) -> Nwk {
    let row = nib::key_row(key_number, LOGGER_KEY);
    Nwk {
        level: 5,
        own: 0,
        active,
        keys: NetworkKeys {
            rows: [row; 2],
            used: 1,
        },
    }
}

// A copy of a frame at the start of the space.
fn copied<'a>(sent: &[u8], space: &'a mut [u8; 27]) -> &'a mut [u8]
    requires { length sent.now ≤ 27 }
{
    let frame = &mut space[..sent.len()];
    frame.copy_from_slice(sent);
    frame
}

// Opens a copy of a frame with `used` rows, of which the first holds `held` for the logger. Prints answer, start, length, the first row's
// counter and the active number.
fn opened(rt: &HostRuntime, name: &str, nwk: Nwk, used: usize, held: u32, sent: &[u8])
    requires { length sent.now ≤ 27 }
{
    let mut space = [0u8; 27];
    let frame = copied(sent, &mut space);
    let key = nwk.keys.rows[0];
    let heard = nib::recorded_row(key.number, LOGGER, held);
    let table = CounterTable {
        rows: [heard; 64],
        used,
    };
    let after = nwk_by_value::open_with(nwk, table, frame);
    let Told { number, start, len } = Told::from(after.answer);
    let first = after.table.rows[0];
    let counter = first.counter;
    let active = after.active;
    lost(println!(rt; "{name} {number} {start} {len} {counter} {active}"));
}

// Opens a copy of a frame of a device that is known, with nothing above 0 heard from it. Prints answer, start, length and the incoming
// counter.
fn opened_aps(rt: &HostRuntime, name: &str, sent: &[u8])
    requires { length sent.now ≤ 27 }
{
    let mut space = [0u8; 27];
    let frame = copied(sent, &mut space);
    let row = PairRow {
        device: LOGGER,
        attribute: aib::VERIFIED,
        key: LOGGER_KEY,
        kind: aib::UNIQUE,
        outgoing: 0,
        incoming: 0,
    };
    let mut pairs = Pairs {
        rows: [row; 16],
        used: 1,
    };
    let answer = aps::open_aps(Aps { level: 5, own: 0 }, &mut pairs, frame);
    let Told { number, start, len } = Told::from(answer);
    let first = pairs.rows[0];
    let incoming = first.incoming;
    lost(println!(rt; "{name} {number} {start} {len} {incoming}"));
}

fn old_counters(rt: &HostRuntime, frames: &[u8; ALL]) {
    let nwk = gateway(7, 7);
    opened(rt, "P5 held 5, counter 4:", nwk, 1, 5, &frames[0..27]);
    opened(rt, "P5 held 5, counter 5:", nwk, 1, 5, &frames[27..54]);
    opened_aps(rt, "P6 APS known with held 0, counter 0:", &frames[54..81]);
}

fn turns(rt: &HostRuntime, frames: &[u8; ALL]) {
    opened(
        rt,
        "P7 active 255, opened under 0:",
        gateway(255, 0),
        0,
        0,
        &frames[81..108],
    );
    opened(
        rt,
        "P8 active 7, opened under 9:",
        gateway(7, 9),
        0,
        0,
        &frames[108..135],
    );
}

fn outgoing(rt: &HostRuntime) {
    let half = nib::reset(nib::sending(0x80000000)).next;
    let past = nib::reset(nib::sending(0x80000001)).next;
    lost(println!(rt; "P9 reset at 0x80000000, 0x80000001: {half} {past}"));
    let plain = [0x08, 0x02, 0x00, 0x00, 0x34, 0x12, 0x1e, 0x01, 0x54];
    let mut out = [0u8; 32];
    let last = nib::sending(u32::MAX);
    let secured = nwk_by_value::secure_with(gateway(7, 7), last, &plain, &mut out);
    let told = Told::from(secured.answer);
    let secured = told.number;
    let taken = answer::outcome_number(by_value::take_with(last).map(|_| ()));
    lost(println!(rt; "P10 NWK outgoing 2^32-1, secured, taken: {secured} {taken}"));
}

fn openings(rt: &HostRuntime, frames: &[u8; ALL]) {
    let nwk = gateway(7, 7);
    opened(rt, "11 held 5, counter 6:", nwk, 1, 5, &frames[135..162]);
    opened(rt, "12 no row, counter 0:", nwk, 0, 9, &frames[162..189]);
    opened(
        rt,
        "13 four bytes after the headers:",
        nwk,
        0,
        0,
        &frames[189..215],
    );
}

// A message in two parts.
fn cut(rt: &HostRuntime, message: &[u8], at: usize) {
    lost(print!(rt; "W-207 hash of 40 bytes, cut at {at}:"));
    let (front, rest) = message.split_at(at.min(message.len()));
    let value = hash_of_two(front, rest);
    print_value(rt, value);
}

fn cuts(rt: &HostRuntime, message: &[u8]) {
    for at in [0, 1, 15, 16, 17] {
        cut(rt, message, at);
    }
}

fn hash_of_two(front: &[u8], rest: &[u8]) -> Result<[u8; 16], Refusal> {
    let state = mmo::hash_add(mmo::hash_start(), front)?;
    mmo::hash_finish(mmo::hash_add(state, rest)?)
}

// A state after so many bytes, which nobody hashed, and a part more: the answer, the total after it, and the value.
fn near(rt: &HostRuntime, total: u32, part: &[u8]) {
    let more = part.len();
    let state = Hashing {
        value: [1u8; 16],
        tail: [2u8; 16],
        total,
    };
    let added = mmo::hash_add(state, part);
    let number = answer::outcome_number(added.map(|_| ()));
    let after = added.unwrap_or(state);
    let whole = after.total;
    lost(print!(rt; "W-207 after {total} bytes {more} more: {number} {whole}"));
    print_value(rt, mmo::hash_finish(after));
}

fn limits(rt: &HostRuntime) {
    near(rt, 536870911, b"");
    near(rt, 536870911, b"\x11");
    near(rt, 536870909, b"\x11\x22\x33");
    near(rt, 536870909, b"\x11\x22");
    near(rt, 536870912, b"");
}

// What cannot be read stays zero.
fn read_frames(rt: &HostRuntime) -> [u8; ALL] {
    let mut frames = [0u8; ALL];
    input::read_full(&mut StandardInput { rt }, &mut frames).is_ok();
    frames
}

fn print_cases(rt: &HostRuntime, frames: &[u8; ALL]) {
    controls(rt);
    paddings(rt);
    old_counters(rt, frames);
    turns(rt, frames);
    outgoing(rt);
    openings(rt, frames);
    let long = [0u8; 8193];
    hashed(rt, "14 hash of 8,191 zero bytes:", &long[..8191]);
    hashed(rt, "14 hash of 8,192 zero bytes:", &long[..8192]);
    hashed(rt, "W-207 hash of 8,193 zero bytes:", &long);
    cuts(rt, &frames[..40]);
    limits(rt);
}

fn main(rt: HostRuntime) {
    print_cases(&rt, &read_frames(&rt));
}
