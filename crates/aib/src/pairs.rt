// The pair rows (document 01, 'The state'): what is shared with each device.
// No Debug and no PartialEq: a key is not printed, and is not compared byte by byte up to the first difference.
ghost use Rattle.std.specs.Prelude.{◌≡◌};
ghost use Rattle.aib.specs.Pairs.{new_row, may_use};

// Key attributes; every other number is reserved.
// Numbers and no enum, here and for the link key types: the C interface holds it (PairRow of pouchkettle_open_aps).
pub const PROVISIONAL: u8 = 0;

pub const UNVERIFIED: u8 = 1;

pub const VERIFIED: u8 = 2;

// Link key types; every other number is reserved.
pub const UNIQUE: u8 = 0;

pub const GLOBAL: u8 = 1;

// The key that every trust centre knows (document 01, opening APS): the letters ZigBeeAlliance09.
pub const TRUST_CENTER_LINK_KEY: [u8; 16] = [
    0x5a, 0x69, 0x67, 0x42, 0x65, 0x65, 0x41, 0x6c, 0x6c, 0x69, 0x61, 0x6e, 0x63, 0x65, 0x30, 0x39,
];

#[repr(C)]
#[derive(Clone, Copy)]
pub struct PairRow {
    pub device: u64,
    pub attribute: u8,
    pub key: [u8; 16],
    pub kind: u8,
    pub outgoing: u32,
    pub incoming: u32,
}

impl PairRow {
    // It is the device's, and its key may be used: it is provisional, unverified or verified.
    pub(crate) fn sends_to(&self, device: u64) -> bool
        ensures { result ≡ may_use device self.now }
    {
        self.device == device && self.attribute <= VERIFIED
    }
}

// Of the rows the first `used` are in use. Rows with a count beside them: the C interface holds it (pouchkettle_open_aps).
#[repr(C)]
#[derive(Clone, Copy)]
pub struct Pairs {
    pub rows: [PairRow; 16],
    pub used: usize,
}

// The row of a device that was not known before.
pub(crate) fn new_row(device: u64, counter: u32) -> PairRow
    ensures { result ≡ new_row device counter }
{
    PairRow {
        device,
        attribute: VERIFIED,
        key: TRUST_CENTER_LINK_KEY,
        kind: GLOBAL,
        outgoing: 0,
        incoming: counter,
    }
}
