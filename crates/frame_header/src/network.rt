// The NWK header (ZB 3.3.1).
ghost use Rattle.std.specs.Prelude.{◌≡◌, ◌≤◌, length};
ghost use Rattle.laws.specs.Numbers.{field};
ghost use Rattle.frame_header.specs.Nwk.{nwk_kind_number, nwk_kind, nwk_fixed, relays_length, nwk_of};

use crate::flags::{is_set, length_if};
use answer::Refusal;

// Places of the flags (ZB 3.3.1.1).
const MULTICAST: u16 = 8;

const SECURITY: u16 = 9;

const SOURCE_ROUTE: u16 = 10;

const DESTINATION_IEEE: u16 = 11;

const SOURCE_IEEE: u16 = 12;

// The frame type (ZB 3.3.1.1.1): numbers 0 to 3. Securing takes the first two.
#[derive(Clone, Copy, Debug, PartialEq, Eq)]
pub enum NwkKind {
    Data,
    Command,
    Reserved,
    InterPan,
}

#[derive(Clone, Copy, Debug, PartialEq, Eq)]
pub struct NwkHeader {
    pub len: usize,
    pub kind: NwkKind,
    pub secured: bool,
}

impl From<NwkKind> for u8 {
    ghost from_gives = { λ kind n. n ≡ nwk_kind_number kind };

    fn from(kind: NwkKind) -> u8 {
        match kind {
            NwkKind::Data => 0,
            NwkKind::Command => 1,
            NwkKind::Reserved => 2,
            NwkKind::InterPan => 3,
        }
    }
}

// The first two octets, low octet first.
#[tactic(auto, using(crate::proofs::Sizes::octets))]
fn control_of(s: &[u8]) -> u16
    requires { 2 ≤ length s.now }
    ensures { result ≡ field s.now 0 2 }
{
    u16::from_le_bytes([s[0], s[1]])
}

#[tactic(auto, unfolding(crate::specs::Nwk::nwk_kind))]
fn kind_of(control: u16) -> NwkKind
    ensures { result ≡ nwk_kind control }
{
    match control % 4 {
        0 => NwkKind::Data,
        1 => NwkKind::Command,
        2 => NwkKind::Reserved,
        _ => NwkKind::InterPan,
    }
}

// All but the source route: control 2, destination 2, source 2, radius 1, sequence 1, and the addresses and multicast control flagged.
#[tactic(auto, unfolding(crate::specs::Nwk::nwk_fixed))]
fn fixed_length(control: u16) -> usize
    ensures { result ≡ nwk_fixed control }
{
    8 + length_if(control, DESTINATION_IEEE, 8)
        + length_if(control, SOURCE_IEEE, 8)
        + length_if(control, MULTICAST, 1)
}

// The source route, if flagged: relay count 1, relay index 1, two octets a relay.
fn relays_length(s: &[u8], at: usize, control: u16) -> usize
    ensures { result ≡ relays_length s.now at control }
{
    if !is_set(control, SOURCE_ROUTE) {
        return 0;
    }
    if s.len() <= at {
        return 2;
    }
    2 + 2 * (s[at] as usize)
}

#[tactic(auto, using(crate::proofs::Sizes::sizes), unfolding(crate::specs::Nwk::nwk_of, crate::specs::Nwk::nwk_length))]
pub fn nwk(s: &[u8]) -> Result<NwkHeader, Refusal>
    ensures { result ≡ nwk_of s.now }
{
    if s.len() < 8 {
        return Err(Refusal::Cut);
    }
    let control = control_of(s);
    let fixed = fixed_length(control);
    let len = fixed + relays_length(s, fixed, control);
    if s.len() < len {
        return Err(Refusal::Cut);
    }
    Ok(NwkHeader {
        len,
        kind: kind_of(control),
        secured: is_set(control, SECURITY),
    })
}
