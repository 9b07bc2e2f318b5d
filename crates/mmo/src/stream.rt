// Request W-207: start, add, finish. What goes from call to call is the caller's, by value.
ghost use Rattle.std.specs.Prelude.{◌≡◌, ◌++◌, ◌+◌, ◌<◌, ◌≤◌, length, take};
ghost use Rattle.answer.specs.Numbers.{giving};
ghost use Rattle.mmo.specs.Hash.{zero_block, filled};
ghost use Rattle.mmo.specs.Stream.{limit, hashing, started, added, finished};

use crate::padding::pad;
use crate::steps::{first_block, run, step};
use answer::Refusal;
use tables::CipherTables;

// 2^32 bits are one byte more.
const LIMIT: usize = 536870911;

// The value over the whole blocks so far, the bytes that wait, and how many there were in all. Of the tail the first total % 16 bytes
// wait, so that no state contradicts itself. No Debug and no PartialEq: a keyed hash begins with its key.
#[repr(C)]
#[derive(Clone, Copy)]
pub struct Hashing {
    pub value: [u8; 16],
    pub tail: [u8; 16],
    pub total: u32,
}

// The start, from the zero block.
#[tactic(auto, unfolding(crate::specs::Stream::started))]
pub fn hash_start() -> Hashing
    ensures { result ≡ started zero_block }
{
    let zero = [0u8; 16];
    Hashing {
        value: zero,
        tail: zero,
        total: 0,
    }
}

// The start from an initial block of the caller's, cut or filled with zeros to 16 bytes.
#[tactic(auto, unfolding(crate::specs::Stream::started))]
pub fn hash_start_from(initial: &[u8]) -> Hashing
    ensures { result ≡ started (filled initial.now) }
{
    let value = first_block(initial);
    Hashing {
        value,
        tail: [0u8; 16],
        total: 0,
    }
}

// Whether n bytes more are taken after so many.
#[tactic(auto, unfolding(crate::specs::Stream::hashing))]
fn takes(total: u32, n: usize) -> Result<(), Refusal>
    ensures { result ≡ hashing (total + n) }
{
    let before = total as usize;
    if LIMIT < before.saturating_add(n) {
        return Err(Refusal::Unsupported);
    }
    Ok(())
}

// The first block of the n bytes that wait and of the part after them.
fn lead(tail: [u8; 16], n: usize, part: &[u8]) -> [u8; 16]
    requires { n < 16 }
    ensures { result ≡ filled (take n tail ++ part.now) }
{
    let mut x = first_block(&tail[..n]);
    octets::xor_into(&mut x[n..], part);
    x
}

// The state with a part more that is taken.
fn followed(state: Hashing, part: &[u8], tables: CipherTables) -> Hashing
    requires { state.total + length part.now ≤ limit }
    ensures { result ≡ added state part.now }
{
    let n = (state.total % 16) as usize;
    let room = 16 - n;
    let total = state.total + part.len() as u32;
    let first = lead(state.tail, n, part);
    if part.len() < room {
        return Hashing {
            tail: first,
            total,
            ..state
        };
    }
    let begun = step(state.value, first, tables);
    let end = part.len() - (part.len() - room) % 16;
    let value = run(begun, &part[room..end], tables);
    let tail = first_block(&part[end..]);
    Hashing { value, tail, total }
}

// The state with a part more, with the tables of AES lent.
pub fn hash_add_with(state: Hashing, part: &[u8], tables: CipherTables) -> Result<Hashing, Refusal>
    ensures { result ≡ giving (hashing (state.total + length part.now)) (added state part.now) }
{
    takes(state.total, part.len())?;
    Ok(followed(state, part, tables))
}

// The same, with the tables named here (docs/PROMISES.md has both forms). A refused part leaves the state that it was to follow.
pub fn hash_add(state: Hashing, part: &[u8]) -> Result<Hashing, Refusal>
    ensures { result ≡ giving (hashing (state.total + length part.now)) (added state part.now) }
{
    hash_add_with(state, part, tables::cipher_tables())
}

// The value, with the tables of AES lent.
pub fn hash_finish_with(state: Hashing, tables: CipherTables) -> Result<[u8; 16], Refusal>
    ensures { result ≡ giving (hashing state.total) (finished state) }
{
    takes(state.total, 0)?;
    let n = (state.total % 16) as usize;
    let mut lent = [0; 32];
    let last = pad(&state.tail[..n], state.total, &mut lent);
    Ok(run(state.value, last, tables))
}

// The same, with the tables named here (docs/PROMISES.md has both forms).
pub fn hash_finish(state: Hashing) -> Result<[u8; 16], Refusal>
    ensures { result ≡ giving (hashing state.total) (finished state) }
{
    hash_finish_with(state, tables::cipher_tables())
}
