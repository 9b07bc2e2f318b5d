// The frame reader: fields on standard input, a line for each frame on standard output. What it prints is said by `lines` of the crate
// `reader`; this program only reads and writes. At its end it says on standard error how it went, in one line, of which the script
// `frame-reader` makes the exit status.
#![tactic(auto)]

use reader::{BadField, Event, Line, Reader};
use std::fmt;

// Why not all was read and written.
#[derive(Clone, Copy)]
enum Ending {
    Bad(BadField),
    Unread,
    Unwritten,
}

impl fmt::Display for Ending {
    fn fmt<W: fmt::Write>(&self, f: &mut fmt::Formatter<W>) -> fmt::Result {
        match self {
            Ending::Bad(bad) => write!(f, "{bad}"),
            Ending::Unread => write!(f, "cannot read the input"),
            Ending::Unwritten => write!(f, "cannot write the lines"),
        }
    }
}

// The frame's number, answer, start and length.
fn print_line(rt: &HostRuntime, line: Line) -> Result<(), Ending> {
    let Line { frame, told } = line;
    let number = told.number;
    let start = told.start;
    let len = told.len;
    println!(rt; "{frame} {number} {start} {len}").map_err(|_| Ending::Unwritten)
}

fn print_bad(rt: &HostRuntime, bad: BadField) -> Ending {
    match println!(rt; "bad") {
        Ok(()) => Ending::Bad(bad),
        Err(_) => Ending::Unwritten,
    }
}

// No input has more fields than bytes.
fn print_lines(rt: &HostRuntime, s: &[u8]) -> Result<(), Ending> {
    let mut reader = Reader::start();
    for _ in 0..s.len() {
        match reader.next(s).map_err(|bad| print_bad(rt, bad))? {
            Event::Quiet => {}
            Event::Tells(line) => print_line(rt, line)?,
            Event::End => break,
        }
    }
    Ok(())
}

fn run(rt: &HostRuntime, space: &mut [u8]) -> Result<(), Ending> {
    let n = input::read_full(&mut rt.stdin(), space).map_err(|_| Ending::Unread)?;
    print_lines(rt, &space[..n])
}

// What cannot be said is lost: the script takes a last line that is no ending for a failure.
fn main(rt: HostRuntime) {
    let mut space = [0u8; 65537];
    let said = match run(&rt, &mut space) {
        Ok(()) => eprintln!(rt; "all read"),
        Err(ending) => eprintln!(rt; "{ending}"),
    };
    said.is_ok();
}
