// The hash of a firmware file, taken as it comes. What goes from call to call is the gateway's, by value.
// Its structs tell numbers, with zeros beside a refusal: the C interface holds it.
ghost use Rattle.std.specs.Prelude.{◌≡◌, ◌+◌, length};
ghost use Rattle.answer.specs.Numbers.{outcome_number, when_done};
ghost use Rattle.mmo.specs.Hash.{zero_block, filled};
ghost use Rattle.mmo.specs.Stream.{hashing, started, finished, after_adding};

use mmo::Hashing;

// A number, and the state after a part.
#[repr(C)]
#[derive(Clone, Copy)]
pub struct ToldHashing {
    pub number: u8,
    pub state: Hashing,
}

// A number, and the value.
#[repr(C)]
#[derive(Clone, Copy)]
pub struct ToldDigest {
    pub number: u8,
    pub value: [u8; 16],
}

// The start.
pub fn pouchkettle_hash_start() -> Hashing
    ensures { result ≡ started zero_block }
{
    mmo::hash_start()
}

// The start from an initial block, cut or filled with zeros to 16 bytes.
pub fn pouchkettle_hash_start_from(initial: &[u8]) -> Hashing
    ensures { result ≡ started (filled initial.now) }
{
    mmo::hash_start_from(initial)
}

// A part more. Past 536,870,911 bytes in all the number is 7 and the state as it was.
#[tactic(auto, unfolding(mmo::specs::Stream::after_adding))]
pub fn pouchkettle_hash_add(state: Hashing, part: &[u8]) -> ToldHashing
    ensures { (result.number ≡ outcome_number (hashing (state.total + length part.now)))
        × (result.state ≡ after_adding state part.now) }
{
    match mmo::hash_add(state, part) {
        Ok(state) => ToldHashing { number: 0, state },
        Err(refusal) => ToldHashing {
            number: u8::from(refusal),
            state,
        },
    }
}

// The value; 7 and zeros for a total past the limit, which no call makes.
pub fn pouchkettle_hash_finish(state: Hashing) -> ToldDigest
    ensures { (result.number ≡ outcome_number (hashing state.total))
        × (result.value ≡ when_done (hashing state.total) (finished state) zero_block) }
{
    match mmo::hash_finish(state) {
        Ok(value) => ToldDigest { number: 0, value },
        Err(refusal) => ToldDigest {
            number: u8::from(refusal),
            value: [0; 16],
        },
    }
}
