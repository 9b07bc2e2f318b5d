// A case (compare/README.md): 44 bytes of numbers and counts, then the tables and two strings.
use crate::parts::{bytes_at, eight, four, octet, parted};

// The calls, by their numbers in a case.
#[derive(Clone, Copy)]
pub(crate) enum Call {
    OpenNwk,
    SecureNwk,
    OpenAps,
    SecureAps,
    Hash,
    HashFrom,
    KeyedHash,
    Take,
    Reset,
    Record,
    Forget,
    Advance,
    RecordPair,
    Control,
    NwkHeader,
    ApsHeader,
    ReadAuxiliary,
    WriteAuxiliary,
    Seal,
    Unseal,
}

// A number that is no call's.
#[derive(Clone, Copy)]
pub(crate) struct UnknownCall;

impl TryFrom<u8> for Call {
    type Error = UnknownCall;

    fn try_from(number: u8) -> Result<Call, UnknownCall> {
        match number {
            1 => Ok(Call::OpenNwk),
            2 => Ok(Call::SecureNwk),
            3 => Ok(Call::OpenAps),
            4 => Ok(Call::SecureAps),
            5 => Ok(Call::Hash),
            6 => Ok(Call::HashFrom),
            7 => Ok(Call::KeyedHash),
            8 => Ok(Call::Take),
            9 => Ok(Call::Reset),
            10 => Ok(Call::Record),
            11 => Ok(Call::Forget),
            12 => Ok(Call::Advance),
            13 => Ok(Call::RecordPair),
            14 => Ok(Call::Control),
            15 => Ok(Call::NwkHeader),
            16 => Ok(Call::ApsHeader),
            17 => Ok(Call::ReadAuxiliary),
            18 => Ok(Call::WriteAuxiliary),
            19 => Ok(Call::Seal),
            20 => Ok(Call::Unseal),
            _ => Err(UnknownCall),
        }
    }
}

#[derive(Clone, Copy)]
pub(crate) struct Head {
    pub call: u8,
    pub show: u8,
    pub level: u8,
    pub active: u8,
    pub own: u64,
    pub outgoing: u32,
    pub number: u8,
    pub control: u8,
    pub extended: bool,
    // how many there are of each table
    pub keys: u8,
    pub rows: u8,
    pub pairs: u8,
    pub device: u64,
    pub counter: u32,
    pub room: usize,
    // how many bytes each string has
    pub first: u32,
    pub second: u32,
}

impl Head {
    pub(crate) fn read(head: &[u8]) -> Head {
        Head {
            call: octet(head, 0),
            show: octet(head, 1),
            level: octet(head, 2),
            active: octet(head, 3),
            own: eight(head, 4),
            outgoing: four(head, 12),
            number: octet(head, 16),
            control: octet(head, 17),
            extended: octet(head, 18) != 0,
            keys: octet(head, 19),
            rows: octet(head, 20),
            pairs: octet(head, 21),
            device: eight(head, 22),
            counter: four(head, 30),
            room: u16::from_le_bytes(bytes_at(head, 34)) as usize,
            first: four(head, 36),
            second: four(head, 40),
        }
    }

    // How many bytes follow the head.
    pub(crate) fn size(&self) -> usize {
        17 * self.keys as usize
            + 13 * self.rows as usize
            + 34 * self.pairs as usize
            + self.first as usize
            + self.second as usize
    }

    // Whether the tables fit what document 01 gives them.
    pub(crate) fn fits(&self) -> bool {
        self.keys <= 2 && self.rows <= 64 && self.pairs <= 16
    }
}

// The numbers, and the tables and strings as they lie in the input.
#[derive(Clone, Copy)]
pub(crate) struct Case<'a> {
    pub head: Head,
    pub keys: &'a [u8],
    pub rows: &'a [u8],
    pub pairs: &'a [u8],
    pub first: &'a [u8],
    pub second: &'a [u8],
}

impl<'a> Case<'a> {
    pub(crate) fn new(head: Head, body: &'a [u8]) -> Case<'a> {
        let (keys, rest) = parted(body, 17 * head.keys as usize);
        let (rows, rest) = parted(rest, 13 * head.rows as usize);
        let (pairs, rest) = parted(rest, 34 * head.pairs as usize);
        let (first, rest) = parted(rest, head.first as usize);
        let (second, _) = parted(rest, head.second as usize);
        Case {
            head,
            keys,
            rows,
            pairs,
            first,
            second,
        }
    }
}
