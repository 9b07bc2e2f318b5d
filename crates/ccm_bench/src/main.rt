// Opens one frame many times, for bench/ccm to count the instructions of. Standard input: rounds (2 bytes, low first), 1 to
// expand the key each time or 0 to expand it once, then the lengths of associated data, payload and tag, the key, the nonce and
// the frame. All are read, so that the compiler knows none of them. It writes how often the frame opened.
#![tactic(auto)]

use input::{StandardInput, read_full};

// The most that is read, and where the key, the nonce and the frame lie in it.
const MOST: usize = 128;

const KEY: usize = 6;

const NONCE: usize = 22;

const FRAME: usize = 35;

#[derive(Drop)]
struct Opening {
    key: [u8; 16],
    nonce: [u8; 13],
    frame: [u8; 64],
    associated: usize,
    payload: usize,
    tag: usize,
}

impl Opening {
    fn from_input(s: &[u8; MOST]) -> Opening {
        let mut key = [0; 16];
        octets::xor_into(&mut key, &s[KEY..]);
        let mut nonce = [0; 13];
        octets::xor_into(&mut nonce, &s[NONCE..]);
        let mut frame = [0; 64];
        octets::xor_into(&mut frame, &s[FRAME..]);
        Opening {
            key,
            nonce,
            frame,
            associated: usize::from(s[3]),
            payload: usize::from(s[4]),
            tag: usize::from(s[5]),
        }
    }

    // Whether a copy of the frame opens.
    fn opens(&self, keys: &[u32; 44]) -> bool {
        let mut copy = self.frame;
        ccm::unseal(
            keys,
            self.nonce,
            self.tag,
            &mut copy,
            self.associated,
            self.payload,
        )
        .is_ok()
    }

    fn times_once_expanded(&self, rounds: u16) -> usize {
        let keys = aes::expand(self.key);
        (0..rounds).filter(|_| self.opens(&keys)).count()
    }

    fn times_each_expanded(&self, rounds: u16) -> usize {
        (0..rounds)
            .filter(|_| self.opens(&aes::expand(self.key)))
            .count()
    }
}

fn times_opened(s: &[u8; MOST]) -> usize {
    let rounds = u16::from_le_bytes([s[0], s[1]]);
    let opening = Opening::from_input(s);
    if s[2] == 1 {
        opening.times_each_expanded(rounds)
    } else {
        opening.times_once_expanded(rounds)
    }
}

// What cannot be read stays zero. A write that fails is lost, and the line's end is tried all the same: the line is compared.
fn main(rt: HostRuntime) {
    let mut space = [0; MOST];
    read_full(&mut StandardInput { rt: &rt }, &mut space).is_ok();
    let opened = times_opened(&space);
    print!(rt; "{opened}").is_ok();
    println!(rt).is_ok();
}
