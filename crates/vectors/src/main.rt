// Public vectors: FIPS 197, SP 800-38A, RFC 3610, Zigbee Annex C, and the ends of each size. They stand as fields in `stdin`
// (tag 1 byte, length 2 bytes low first, as tools/vectors.py writes them); a line for each is compared with `stdout`, which that
// program computed with OpenSSL's AES and CCM and nothing of this project.
#![tactic(auto)]

mod fields;

use answer::Refusal;
use fields::{Field, Fields, number};
use input::{StandardInput, read_full};
use std::io::{self, Write};

// The most that is read.
const MOST: usize = 65536;

// A write that fails is lost, and the next is tried: the lines are compared.
fn lost(written: io::Result<()>) {
    written.is_ok();
}

#[derive(Clone, Copy)]
enum Kind {
    Block,
    Ccm,
    Hash,
    HashFrom,
    KeyedHash,
}

impl TryFrom<usize> for Kind {
    type Error = ();

    fn try_from(kind: usize) -> Result<Kind, ()> {
        match kind {
            1 => Ok(Kind::Block),
            2 => Ok(Kind::Ccm),
            3 => Ok(Kind::Hash),
            4 => Ok(Kind::HashFrom),
            5 => Ok(Kind::KeyedHash),
            _ => Err(()),
        }
    }
}

// The vector that is being read.
#[derive(Clone, Copy)]
struct Vector<'a> {
    name: &'a [u8],
    key: &'a [u8],
    nonce: &'a [u8],
    associated: usize,
    data: &'a [u8],
    long: &'a [u8],
    tag: usize,
}

impl<'a> Vector<'a> {
    fn empty() -> Vector<'a> {
        Vector {
            name: &[],
            key: &[],
            nonce: &[],
            associated: 0,
            data: &[],
            long: &[],
            tag: 0,
        }
    }

    // The vector after one more field.
    fn with(self, field: Field, body: &'a [u8]) -> Vector<'a> {
        let n = number(body);
        match field {
            Field::Name => Vector { name: body, ..self },
            Field::Key => Vector { key: body, ..self },
            Field::Nonce => Vector {
                nonce: body,
                ..self
            },
            Field::Associated => Vector {
                associated: n,
                ..self
            },
            Field::Data => Vector { data: body, ..self },
            Field::Tag => Vector { tag: n, ..self },
            Field::Long => Vector { long: body, ..self },
            Field::KeyOfLong => Vector {
                key: first(self.long, n),
                ..self
            },
            Field::DataOfLong => Vector {
                data: first(self.long, n),
                ..self
            },
            Field::Run | Field::Unknown => self,
        }
    }

    fn run(self, rt: &HostRuntime, kind: Result<Kind, ()>) {
        lost(rt.stdout().write_all(self.name));
        lost(print!(rt; ": "));
        match kind {
            Ok(Kind::Block) => self.run_block(rt),
            Ok(Kind::Ccm) => self.run_ccm(rt),
            Ok(Kind::Hash) => print_digest(rt, primitives::hash(self.data)),
            Ok(Kind::HashFrom) => print_digest(rt, primitives::hash_from(self.key, self.data)),
            Ok(Kind::KeyedHash) => print_digest(rt, primitives::keyed_hash(self.key, self.data)),
            Err(()) => lost(print!(rt; "unknown kind")),
        }
        lost(println!(rt; ""));
    }

    fn run_block(self, rt: &HostRuntime) {
        let keys = aes::expand(filled(self.key));
        print_bytes(rt, &aes::encrypt(&keys, filled(self.data)));
    }

    // Seals the data from `associated` on, with what lies before as associated data; opens what was sealed, and opens it once more with
    // the first byte of its tag changed.
    fn run_ccm(self, rt: &HostRuntime) {
        let at = self.associated;
        let end = self.data.len();
        if end < at || 128 < end || 16 < self.tag {
            return;
        }
        let n = end - at;
        let keys = aes::expand(filled(self.key));
        let nonce = filled(self.nonce);
        let mut frame: [u8; 144] = filled(self.data);
        lost(print!(rt; "sealed "));
        print_outcome(rt, ccm::seal(&keys, nonce, self.tag, &mut frame, at, n));
        print_bytes(rt, &frame[at..end + self.tag]);
        let mut forged = frame;
        lost(print!(rt; ", opened "));
        print_outcome(rt, ccm::unseal(&keys, nonce, self.tag, &mut frame, at, n));
        print_bytes(rt, &frame[at..end]);
        forged[end] ^= 1;
        lost(print!(rt; ", with a changed tag "));
        print_outcome(rt, ccm::unseal(&keys, nonce, self.tag, &mut forged, at, n));
        print_bytes(rt, &forged[at..end]);
    }
}

// The first n bytes, or all of them where there are fewer.
fn first(s: &[u8], n: usize) -> &[u8] {
    s.get(..n).unwrap_or(s)
}

// The first N bytes, zeros where there are fewer.
fn filled<const N: usize>(s: &[u8]) -> [u8; N] {
    let mut out = [0; N];
    octets::xor_into(&mut out, s);
    out
}

// The digit for the lower four bits. By hand, since `{:02x}` took a fifth of the instructions. `replay` has these lines too: a
// crate for them is no plainer.
fn digit(n: u8) -> u8 {
    let low = n % 16;
    if low < 10 { 48 + low } else { 87 + low }
}

fn print_bytes(rt: &HostRuntime, s: &[u8]) {
    for x in s {
        lost(rt.stdout().write_all(&[digit(*x / 16), digit(*x)]));
    }
}

fn print_outcome(rt: &HostRuntime, outcome: Result<(), Refusal>) {
    let number = answer::outcome_number(outcome);
    lost(print!(rt; "{number}"));
    lost(print!(rt; " "));
}

// A refusal's value is printed as zeros.
fn print_digest(rt: &HostRuntime, digest: Result<[u8; 16], Refusal>) {
    print_outcome(rt, digest.map(|_| ()));
    print_bytes(rt, &digest.unwrap_or([0; 16]));
}

// The vector after one more field, which may be that it is to be run.
fn followed<'a>(rt: &HostRuntime, vector: Vector<'a>, field: Field, body: &'a [u8]) -> Vector<'a> {
    if let Field::Run = field {
        vector.run(rt, Kind::try_from(number(body)));
    }
    vector.with(field, body)
}

fn run_all(rt: &HostRuntime, s: &[u8]) {
    let mut vector = Vector::empty();
    for (field, body) in Fields::of(s) {
        vector = followed(rt, vector, field, body);
    }
}

fn main(rt: HostRuntime) {
    let mut space = [0; MOST];
    let n = read_full(&mut StandardInput { rt: &rt }, &mut space).unwrap_or(0);
    run_all(&rt, first(&space, n));
}
