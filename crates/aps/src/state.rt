// What a call is told of the gateway's state, by value.
ghost use Rattle.std.specs.Prelude.{◌≡◌, not, ◌||◌, eqb, ltb};

// The level and the gateway's own address.
#[repr(C)]
#[derive(Clone, Copy)]
pub struct Aps {
    pub level: u8,
    pub own: u64,
}

// Whether no call is taken in this state: another level than 5, or a count of pair rows in use above 16.
pub(crate) fn unfit(aps: Aps, used: usize) -> bool
    ensures { result ≡ not (eqb aps.level 5) || ltb 16 used }
{
    aps.level != 5 || 16 < used
}
