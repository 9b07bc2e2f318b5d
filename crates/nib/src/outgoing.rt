// The counter that the network layer sends next (ZB 4.3.1.1, 4.3.4): one for all keys. The crate `counter_record` takes from it.
ghost use Rattle.std.specs.Prelude.{◌≡◌};
ghost use Rattle.nib.specs.Sending.{sending, may_use, restarted};

#[repr(C)]
#[derive(Clone, Copy, Debug, PartialEq, Eq)]
pub struct Outgoing {
    pub next: u32,
}

// The record that this counter is sent from next.
pub fn sending(next: u32) -> Outgoing
    ensures { result ≡ sending next }
{
    Outgoing { next }
}

// The last counter is never sent: no other could follow it.
pub fn usable(outgoing: Outgoing) -> bool
    ensures { result ≡ may_use outgoing }
{
    outgoing.next != 4294967295
}

// On a change of key: a counter past the half starts anew, so that one who changes keys often does not repeat low counters.
#[tactic(auto, unfolding(crate::specs::Sending::restarted))]
pub fn reset(outgoing: Outgoing) -> Outgoing
    ensures { result ≡ restarted outgoing }
{
    if outgoing.next > 0x80000000 {
        sending(0)
    } else {
        outgoing
    }
}
