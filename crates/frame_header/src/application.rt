// The APS header (ZB 2.2.5.1).
ghost use Rattle.std.specs.Prelude.{◌≡◌};
ghost use Rattle.frame_header.specs.Aps.{aps_kind_number, delivery_number, aps_kind, aps_delivery, is_command, is_secured, aps_taken, aps_length, aps_of};

use crate::flags::is_set;
use answer::Refusal;

// Places of the flags (ZB 2.2.5.1.1).
const SECURITY: u16 = 5;

const EXTENDED_HEADER: u16 = 7;

// The frame type (ZB 2.2.5.1.1.1): numbers 0 to 3.
#[derive(Clone, Copy)]
enum ApsKind {
    Data,
    Command,
    Acknowledgement,
    InterPan,
}

// The delivery mode (ZB 2.2.5.1.1.2): numbers 0 to 3.
#[derive(Clone, Copy)]
enum Delivery {
    Unicast,
    Reserved,
    Broadcast,
    Group,
}

#[derive(Clone, Copy, Debug, PartialEq, Eq)]
pub struct ApsControl {
    pub byte: u8,
}

#[derive(Clone, Copy, Debug, PartialEq, Eq)]
pub struct ApsHeader {
    pub len: usize,
    pub command: bool,
    pub secured: bool,
}

impl ApsControl {
    fn kind(self) -> ApsKind
        ensures { aps_kind_number result ≡ aps_kind self.byte }
    {
        match self.byte % 4 {
            0 => ApsKind::Data,
            1 => ApsKind::Command,
            2 => ApsKind::Acknowledgement,
            _ => ApsKind::InterPan,
        }
    }

    fn delivery(self) -> Delivery
        ensures { delivery_number result ≡ aps_delivery self.byte }
    {
        match self.byte / 4 % 4 {
            0 => Delivery::Unicast,
            1 => Delivery::Reserved,
            2 => Delivery::Broadcast,
            _ => Delivery::Group,
        }
    }

    pub fn command(self) -> bool
        ensures { result ≡ is_command self.byte }
    {
        matches!(self.kind(), ApsKind::Command)
    }

    pub fn secured(self) -> bool
        ensures { result ≡ is_secured self.byte }
    {
        is_set(self.byte as u16, SECURITY)
    }

    // Not taken: acknowledgement and inter-PAN frames, an extended header, data with the reserved delivery mode.
    #[tactic(auto, unfolding(crate::specs::Aps::aps_taken))]
    pub fn taken(self) -> bool
        ensures { result ≡ aps_taken self.byte }
    {
        if is_set(self.byte as u16, EXTENDED_HEADER) {
            return false;
        }
        match self.kind() {
            ApsKind::Data => !matches!(self.delivery(), Delivery::Reserved),
            ApsKind::Command => true,
            ApsKind::Acknowledgement | ApsKind::InterPan => false,
        }
    }

    // Frame control and counter; with data also endpoint or group, cluster, profile and source endpoint.
    #[tactic(auto, unfolding(crate::specs::Aps::aps_length))]
    pub fn length(self) -> usize
        ensures { result ≡ aps_length self.byte }
    {
        if self.command() {
            return 2;
        }
        match self.delivery() {
            Delivery::Group => 9,
            Delivery::Unicast | Delivery::Reserved | Delivery::Broadcast => 8,
        }
    }
}

#[tactic(auto, unfolding(crate::specs::Aps::aps_of))]
pub fn aps(s: &[u8]) -> Result<ApsHeader, Refusal>
    ensures { result ≡ aps_of s.now }
{
    let byte = s.first().copied().ok_or(Refusal::Cut)?;
    let control = ApsControl { byte };
    if !control.taken() {
        return Err(Refusal::Unsupported);
    }
    let len = control.length();
    if s.len() < len {
        return Err(Refusal::Cut);
    }
    Ok(ApsHeader {
        len,
        command: control.command(),
        secured: control.secured(),
    })
}
