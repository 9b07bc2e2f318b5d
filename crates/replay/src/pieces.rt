// The calls below the frames: hashes, control byte, headers, auxiliary header, cipher.
ghost use Rattle.std.specs.Prelude.{IfSome, ◌≤◌, length};

use crate::asked::Case;
use crate::classes::nwk_class;
use crate::parts::{blanked, bytes_at, laid};
use crate::telling::{Line, NUMBERS, ROWS};
use answer::Refusal;
use auxiliary_header::{Auxiliary, KeyUsed};
use control::Control;

fn tell_outcome(outcome: Result<(), Refusal>, line: Line<'_>) {
    line.outcome(outcome, nwk_class);
    line.none(NUMBERS);
    line.none(ROWS);
}

// Nothing but a refusal: no numbers, no rows, no bytes.
fn tell_refusal(refusal: Refusal, line: Line<'_>) {
    tell_outcome(Err(refusal), line);
    line.bytes(&[]);
}

// A refusal's value is told as 16 zero bytes.
fn tell_value(value: Result<[u8; 16], Refusal>, line: Line<'_>) {
    tell_outcome(value.map(|_| ()), line);
    line.bytes(&value.unwrap_or([0; 16]));
}

pub(crate) fn hash(case: &Case<'_>, line: Line<'_>) {
    tell_value(primitives::hash(case.first), line);
}

pub(crate) fn hash_from(case: &Case<'_>, line: Line<'_>) {
    tell_value(primitives::hash_from(case.first, case.second), line);
}

pub(crate) fn keyed_hash(case: &Case<'_>, line: Line<'_>) {
    tell_value(primitives::keyed_hash(case.first, case.second), line);
}

pub(crate) fn control(case: &Case<'_>, line: Line<'_>) {
    let control = Control {
        byte: case.head.control,
    };
    line.number_and_span(0, 0, 0);
    line.number(control.level() as u64);
    line.next(control.tag_length() as u64);
    line.next(control.key() as u64);
    line.next(control.has_sender() as u64);
    line.next(control.has_number() as u64);
    line.next(control.filled(case.head.level).byte as u64);
    line.none(ROWS);
    line.bytes(&[]);
}

pub(crate) fn nwk_header(case: &Case<'_>, line: Line<'_>) {
    match frame_header::nwk(case.first) {
        Err(refusal) => tell_refusal(refusal, line),
        Ok(h) => {
            line.number_and_span(0, 0, h.len);
            line.number(u8::from(h.kind) as u64);
            line.next(h.secured as u64);
            line.none(ROWS);
            line.bytes(&[]);
        }
    }
}

pub(crate) fn aps_header(case: &Case<'_>, line: Line<'_>) {
    match frame_header::aps(case.first) {
        Err(refusal) => tell_refusal(refusal, line),
        Ok(h) => {
            line.number_and_span(0, 0, h.len);
            line.number(h.command as u64);
            line.next(h.secured as u64);
            line.none(ROWS);
            line.bytes(&[]);
        }
    }
}

fn tell_auxiliary(a: Auxiliary, line: Line<'_>) {
    line.number_and_span(0, 0, a.next);
    line.number(a.control.byte as u64);
    line.next(a.counter as u64);
    line.next(a.sender.is_some() as u64);
    line.next(a.sender.unwrap_or(0));
    line.next(a.control.key() as u64);
    match a.key {
        KeyUsed::Network(number) => line.next(number as u64),
        _ => line.next(0),
    }
    line.none(ROWS);
    line.bytes(&[]);
}

pub(crate) fn read_auxiliary(case: &Case<'_>, line: Line<'_>) {
    match auxiliary_header::read(case.first, 0) {
        Err(refusal) => tell_refusal(refusal, line),
        Ok(a) => tell_auxiliary(a, line),
    }
}

pub(crate) fn write_auxiliary(case: &Case<'_>, space: &mut [u8], line: Line<'_>) {
    let head = case.head;
    let Some(out) = blanked(space, head.room) else {
        return line.text("bad\n");
    };
    let control = Control { byte: head.control };
    let written = auxiliary_header::write(out, 0, control, head.counter, head.device, head.number);
    tell_outcome(written, line);
    line.bytes(out);
}

// Key, nonce and associated data, as the first string has them.
#[derive(Clone, Copy)]
struct Under<'a> {
    keys: [u32; 44],
    nonce: [u8; 13],
    associated: &'a [u8],
}

fn read_under(s: &[u8]) -> Under<'_> {
    Under {
        keys: aes::expand(bytes_at(s, 0)),
        nonce: bytes_at(s, 16),
        associated: s.get(29..).unwrap_or(&[]),
    }
}

// Two strings laid into the space, one after the other: where the second ends; none where there is no space for both.
// `seal` and `unseal` then take 0 for the end: the cipher gets too few bytes, and refuses.
fn both_laid(a: &[u8], b: &[u8], space: &mut [u8]) -> Option<usize>
    ensures { IfSome result (λ end. end ≤ length space.new) }
{
    laid(a, space)?;
    laid(b, &mut space[a.len()..])?;
    Some(a.len() + b.len())
}

// The message is in the second string. The message with its tag is told.
pub(crate) fn seal(case: &Case<'_>, space: &mut [u8], line: Line<'_>) {
    let under = read_under(case.first);
    let at = under.associated.len();
    let tag = case.head.number as usize;
    let end = both_laid(under.associated, case.second, space).unwrap_or(0) + tag;
    if space.len() < end {
        return line.text("bad\n");
    }
    let out = &mut space[..end];
    let sealed = ccm::seal(&under.keys, under.nonce, tag, out, at, case.second.len());
    tell_outcome(sealed, line);
    line.bytes(out.get(at..).unwrap_or(&[]));
}

// The same, with the sealed message and its tag in the second string. What stands there after the call is told.
pub(crate) fn unseal(case: &Case<'_>, space: &mut [u8], line: Line<'_>) {
    let under = read_under(case.first);
    let at = under.associated.len();
    let n = case.second.len();
    let tag = case.head.number as usize;
    let end = both_laid(under.associated, case.second, space).unwrap_or(0);
    if space.len() < end || n < tag {
        return line.text("bad\n");
    }
    let buf = &mut space[..end];
    let opened = ccm::unseal(&under.keys, under.nonce, tag, buf, at, n - tag);
    tell_outcome(opened, line);
    line.bytes(buf.get(at..).unwrap_or(&[]));
}
