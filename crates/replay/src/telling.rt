// The line that answers a case: answer, start, length, numbers, rows, bytes, with a space between two. `-` is none, `.` what the case does not
// ask for.
use answer::{Accepted, Answer, Refusal};
use std::io::{self, Write};

// What a case asks to be shown. Bits, since it asks for several at once (compare/README.md): an enum is no plainer.
const ANSWER: u8 = 1;

const SPAN: u8 = 2;

pub(crate) const NUMBERS: u8 = 4;

pub(crate) const ROWS: u8 = 8;

const BYTES: u8 = 16;

// Bytes that become digits in one piece. By hand, since `{:02x}` is one write for each byte and took six times as long over 20,000 cases.
const PIECE: usize = 512;

// The digit for the lower four bits.
fn digit(n: u8) -> u8 {
    let low = n % 16;
    if low < 10 { 48 + low } else { 87 + low }
}

// A write that fails is lost, and the next is tried: what is printed is compared.
fn lost(written: io::Result<()>) {
    written.is_ok();
}

#[derive(Clone, Copy)]
pub(crate) struct Line<'a> {
    pub rt: &'a HostRuntime,
    pub show: u8,
}

impl<'a> Line<'a> {
    pub(crate) fn shows(self, what: u8) -> bool {
        self.show & what != 0
    }

    pub(crate) fn text(self, s: &str) {
        lost(self.rt.stdout().write_all(s.as_bytes()));
    }

    // A number, after the byte that leads it, if any. By hand too: `print!` took four times the instructions.
    fn decimal(self, lead: Option<u8>, n: u64) {
        let mut text = [lead.unwrap_or(0); 21];
        let mut start = text.len();
        let mut rest = n;
        for (at, place) in text.iter_mut().enumerate().rev() {
            *place = digit((rest % 10) as u8);
            start = at;
            rest /= 10;
            if rest == 0 {
                break;
            }
        }
        // what stands before the digits is the lead
        if lead.is_some() {
            start = start.saturating_sub(1);
        }
        lost(self.rt.stdout().write_all(text.get(start..).unwrap_or(&[])));
    }

    fn piece(self, s: &[u8]) {
        let mut digits = [0u8; 2 * PIECE];
        for (pair, x) in digits.chunks_exact_mut(2).zip(s) {
            pair[0] = digit(*x / 16);
            pair[1] = digit(*x);
        }
        let end = digits.len().min(2 * s.len().min(PIECE));
        lost(self.rt.stdout().write_all(&digits[..end]));
    }

    pub(crate) fn octets(self, s: &[u8]) {
        for piece in s.chunks(PIECE) {
            self.piece(piece);
        }
    }

    pub(crate) fn number_and_span(self, number: u8, start: usize, len: usize) {
        if self.shows(ANSWER) {
            self.decimal(None, number as u64);
        } else {
            self.text(".");
        }
        if self.shows(SPAN) {
            self.decimal(Some(b' '), start as u64);
            self.decimal(Some(b' '), len as u64);
        } else {
            self.text(" . .");
        }
    }

    // An answer, with its refusal led back to a class.
    pub(crate) fn answer<F: Fn(Refusal) -> u8>(self, answer: Answer, class: F)
        requires { F.IsAlwaysCallable class }
    {
        match answer {
            Ok(Accepted::Done { start, len }) => self.number_and_span(0, start, len),
            Ok(Accepted::Plain { start, len }) => self.number_and_span(1, start, len),
            Err(refusal) => self.number_and_span(class(refusal), 0, 0),
        }
    }

    pub(crate) fn outcome<F: Fn(Refusal) -> u8>(self, outcome: Result<(), Refusal>, class: F)
        requires { F.IsAlwaysCallable class }
    {
        match outcome {
            Ok(()) => self.number_and_span(0, 0, 0),
            Err(refusal) => self.number_and_span(class(refusal), 0, 0),
        }
    }

    // The only number, or the first of some.
    pub(crate) fn number(self, n: u64) {
        if self.shows(NUMBERS) {
            self.decimal(Some(b' '), n);
        } else {
            self.text(" .");
        }
    }

    pub(crate) fn next(self, n: u64) {
        if self.shows(NUMBERS) {
            self.decimal(Some(b','), n);
        }
    }

    pub(crate) fn none(self, what: u8) {
        self.text(if self.shows(what) { " -" } else { " ." });
    }

    // The bytes, and the line's end.
    pub(crate) fn bytes(self, s: &[u8]) {
        if s.is_empty() {
            self.none(BYTES);
        } else if self.shows(BYTES) {
            self.text(" ");
            self.octets(s);
        } else {
            self.text(" .");
        }
        self.text("\n");
    }
}
