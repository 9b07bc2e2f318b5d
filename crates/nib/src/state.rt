// What a call is told of the gateway's state, by value.
use crate::keys::NetworkKeys;

// The level, the gateway's own address, the number of the active key, and the network keys.
#[repr(C)]
#[derive(Clone, Copy)]
pub struct Nwk {
    pub level: u8,
    pub own: u64,
    pub active: u8,
    pub keys: NetworkKeys,
}
