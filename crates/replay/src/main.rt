// Cases on standard input, a line for each on standard output: compare/README.md lays both out. The gate replays `stdin`, a sample of cases,
// and holds the lines to `stdout`, which the published Rust wrote and no program of this project (compare/fixed-list). compare/run sends
// the same program many more. It promises nothing but to end and to be safe: what it prints is compared.
#![tactic(auto)]

mod application;
mod asked;
mod classes;
mod gateway;
mod network;
mod parts;
mod pieces;
mod telling;

use asked::{Call, Case, Head};
use input::{StandardInput, read_full};
use telling::Line;

// No run takes more cases.
const MOST: usize = 1000000;

fn run(case: &Case<'_>, space: &mut [u8], line: Line<'_>) {
    let Ok(call) = Call::try_from(case.head.call) else {
        return line.text("unknown\n");
    };
    match call {
        Call::OpenNwk => network::open(case, space, line),
        Call::SecureNwk => network::secure(case, space, line),
        Call::OpenAps => application::open(case, space, line),
        Call::SecureAps => application::secure(case, space, line),
        Call::Hash => pieces::hash(case, line),
        Call::HashFrom => pieces::hash_from(case, line),
        Call::KeyedHash => pieces::keyed_hash(case, line),
        Call::Take => network::take(case, line),
        Call::Reset => network::reset(case, line),
        Call::Record => network::record(case, line),
        Call::Forget => network::forget(case, line),
        Call::Advance => application::advance(case, line),
        Call::RecordPair => application::record(case, line),
        Call::Control => pieces::control(case, line),
        Call::NwkHeader => pieces::nwk_header(case, line),
        Call::ApsHeader => pieces::aps_header(case, line),
        Call::ReadAuxiliary => pieces::read_auxiliary(case, line),
        Call::WriteAuxiliary => pieces::write_auxiliary(case, space, line),
        Call::Seal => pieces::seal(case, space, line),
        Call::Unseal => pieces::unseal(case, space, line),
    }
}

// Reads a case and runs it. Whether there may be another. A case that is cut, or has more in it than is taken: the line `bad`, and
// reading stops.
fn step(rt: &HostRuntime, body: &mut [u8], space: &mut [u8]) -> bool {
    let mut input = StandardInput { rt };
    let mut bytes = [0u8; 44];
    let n = read_full(&mut input, &mut bytes).unwrap_or(0);
    if n == 0 {
        return false;
    }
    let head = Head::read(&bytes);
    let line = Line {
        rt,
        show: head.show,
    };
    let wanted = head.size();
    if n < 44 || !head.fits() || body.len() < wanted {
        line.text("bad\n");
        return false;
    }
    if read_full(&mut input, &mut body[..wanted]).unwrap_or(0) < wanted {
        line.text("bad\n");
        return false;
    }
    run(&Case::new(head, &body[..wanted]), space, line);
    true
}

fn main(rt: HostRuntime) {
    let mut body = [0u8; 131072];
    let mut space = [0u8; 4096];
    for _ in 0..MOST {
        if !step(&rt, &mut body, &mut space) {
            break;
        }
    }
}
