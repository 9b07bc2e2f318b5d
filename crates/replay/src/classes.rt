// The number that is told of a refusal: the class that the Rust knows. Request W-201's numbers say more than the Rust does; they are led back to
// their classes here and nowhere else.
use answer::Refusal;

pub(crate) fn nwk_class(refusal: Refusal) -> u8 {
    match refusal {
        Refusal::CounterSpent
        | Refusal::SenderAbsent
        | Refusal::KeyNotAllowed
        | Refusal::CounterRepeated
        | Refusal::CounterBehind => 3,
        Refusal::NoNetworkKey | Refusal::NoPair | Refusal::TableFull | Refusal::DeviceAbsent => 4,
        _ => u8::from(refusal),
    }
}

// The Rust's class for a counter that is not above the held one is 3 in NWK and 4 in APS.
pub(crate) fn aps_class(refusal: Refusal) -> u8 {
    match refusal {
        Refusal::CounterRepeated | Refusal::CounterBehind => 4,
        _ => nwk_class(refusal),
    }
}
