// What a call answers, and its number: document 01's, with the finer ones of request W-201 (document 02).
#![tactic(auto)]

ghost use Rattle.std.specs.Prelude.{◌≡◌};
ghost use Rattle.answer.specs.Numbers.{number, outcome_number, told};

// Why a call is refused: a case for each reason.
#[derive(Clone, Copy, Debug, PartialEq, Eq)]
pub enum Refusal {
    // header, command, auxiliary header or tag cut short
    Cut,
    // a counter of 2^32-1: received, or a pair's outgoing counter
    CounterSpent,
    // no sender in a frame that must have one, or not asked for where it must be sent
    SenderAbsent,
    // a key identifier that is not allowed, or no key number
    KeyNotAllowed,
    // a counter equal to the held one
    CounterRepeated,
    // a counter below the held one
    CounterBehind,
    // no network key of that number
    NoNetworkKey,
    // no usable pair row
    NoPair,
    // no free row for a new pair
    TableFull,
    // APS: no sender
    DeviceAbsent,
    // the tag is wrong
    WrongTag,
    // NWK: the outgoing counter is 2^32-1
    CounterExhausted,
    // a state, size or frame kind that is not taken
    Unsupported,
    // an output buffer shorter than the finished frame
    NoRoom,
}

// What opening and securing hand back where they do not refuse. Plain: the frame's security bit is clear.
#[derive(Clone, Copy, Debug, PartialEq, Eq)]
pub enum Accepted {
    Done { start: usize, len: usize },
    Plain { start: usize, len: usize },
}

// What opening and securing answer.
pub type Answer = Result<Accepted, Refusal>;

// The answer's number, and the start and length that go with it.
// A number and no enum, with zeros beside a refusal's: the C interface holds it (what pouchkettle_open_nwk tells).
#[repr(C)]
#[derive(Clone, Copy, Debug, PartialEq, Eq)]
pub struct Told {
    pub number: u8,
    pub start: usize,
    pub len: usize,
}

impl From<Refusal> for u8 {
    ghost from_gives = { λ refusal n. n ≡ number refusal };

    fn from(refusal: Refusal) -> u8 {
        match refusal {
            Refusal::Cut => 2,
            Refusal::CounterSpent => 30,
            Refusal::SenderAbsent => 31,
            Refusal::KeyNotAllowed => 32,
            Refusal::CounterRepeated => 33,
            Refusal::CounterBehind => 34,
            Refusal::NoNetworkKey => 40,
            Refusal::NoPair => 41,
            Refusal::TableFull => 42,
            Refusal::DeviceAbsent => 43,
            Refusal::WrongTag => 5,
            Refusal::CounterExhausted => 6,
            Refusal::Unsupported => 7,
            Refusal::NoRoom => 8,
        }
    }
}

// The number of what a call that only does its work answers. No `From`: neither `u8` nor `Result` is this crate's.
pub fn outcome_number(outcome: Result<(), Refusal>) -> u8
    ensures { result ≡ outcome_number outcome }
{
    match outcome {
        Ok(()) => 0,
        Err(refusal) => u8::from(refusal),
    }
}

impl From<Answer> for Told {
    ghost from_gives = { λ answer t. t ≡ told answer };

    fn from(answer: Answer) -> Told {
        match answer {
            Ok(Accepted::Done { start, len }) => Told {
                number: 0,
                start,
                len,
            },
            Ok(Accepted::Plain { start, len }) => Told {
                number: 1,
                start,
                len,
            },
            Err(refusal) => Told {
                number: u8::from(refusal),
                start: 0,
                len: 0,
            },
        }
    }
}
