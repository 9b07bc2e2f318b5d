// The hash of a firmware file: standard input in parts of at most 4,096 bytes, the value in hex on standard output. Where there are more
// than 536,870,911 bytes it prints `long`, where reading fails `unread`, and no value. What the value is, `mmo` promises; this
// program only reads and writes. Where standard error is a terminal it shows there how far it is.
#![tactic(auto)]

use answer::Refusal;
use std::fmt;
use std::io::{self, IsTerminal, Read, Write};

// More turns than this no input has: each takes a byte, and one byte past the limit ends it.
const TURNS: usize = 536870913;

// Why there is no value.
#[derive(Clone, Copy)]
enum NoValue {
    Long,
    Unread,
}

impl From<Refusal> for NoValue {
    fn from(_refusal: Refusal) -> NoValue {
        NoValue::Long
    }
}

impl From<io::Error> for NoValue {
    fn from(_error: io::Error) -> NoValue {
        NoValue::Unread
    }
}

impl fmt::Display for NoValue {
    fn fmt<W: fmt::Write>(&self, f: &mut fmt::Formatter<W>) -> fmt::Result {
        match self {
            NoValue::Long => write!(f, "long"),
            NoValue::Unread => write!(f, "unread"),
        }
    }
}

// A write that fails is lost, and the next is tried: the script takes what is no whole value for a failure.
fn lost(written: io::Result<()>) {
    written.is_ok();
}

// How far it is, for each four megabytes.
fn show(rt: &HostRuntime, before: u32, total: u32) {
    if before / 4000000 == total / 4000000 {
        return;
    }
    let megabytes = total / 1000000;
    lost(eprint!(rt; "\r{megabytes} MB "));
}

// The value of all that is read, part after part. A read of nothing is the end of the input.
fn hash_input(rt: &HostRuntime, shows: bool) -> Result<[u8; 16], NoValue> {
    let mut state = mmo::hash_start();
    let mut part = [0u8; 4096];
    for _ in 0..TURNS {
        let n = rt.stdin().read(&mut part)?;
        if n == 0 {
            break;
        }
        let next = mmo::hash_add(state, &part[..n])?;
        if shows {
            show(rt, state.total, next.total);
        }
        state = next;
    }
    Ok(mmo::hash_finish(state)?)
}

// The octets in hexadecimal.
fn print_value(rt: &HostRuntime, value: &[u8]) {
    for octet in value {
        lost(print!(rt; "{octet:02x}"));
    }
}

fn main(rt: HostRuntime) {
    let shows = rt.stderr().is_terminal();
    match hash_input(&rt, shows) {
        Ok(value) => print_value(&rt, &value),
        Err(why) => lost(print!(rt; "{why}")),
    }
    if shows {
        lost(rt.stderr().write_all(b"\r        \r"));
    }
    lost(rt.stdout().write_all(b"\n"));
}
