// What is wrong with a field, or with the input, and how a person is told.
ghost use Rattle.std.specs.Prelude.{Some};
ghost use Rattle.reader.specs.Texts.{fault_text, bad_text};

use std::fmt;

#[derive(Clone, Copy, Debug, PartialEq, Eq)]
pub enum Fault {
    UnknownTag,
    WrongLength,
    RepeatedKey,
    RepeatedRow,
    ThirdKey,
    SurplusRow,
    CutField,
    InputTooLong,
}

impl fmt::Display for Fault {
    ghost output = { λ fault. Some (fault_text fault) };

    fn fmt<W: fmt::Write>(&self, f: &mut fmt::Formatter<W>) -> fmt::Result {
        match self {
            Fault::UnknownTag => f.write_str(
                "unknown tag; a field begins with 0x01, 0x02, 0x03 or 0x10",
            ),
            Fault::WrongLength => f.write_str(
                "wrong length; a key row has 17 bytes, a counter row 13, an active number 1",
            ),
            Fault::RepeatedKey => f.write_str(
                "repeated row; there is a key of this number already",
            ),
            Fault::RepeatedRow => f.write_str(
                "repeated row; there is a counter row of this key number and sender already",
            ),
            Fault::ThirdKey => f.write_str("third key; there is room for two"),
            Fault::SurplusRow => f.write_str("65th counter row; there is room for 64"),
            Fault::CutField => f.write_str("cut field; the input ends within it"),
            Fault::InputTooLong => f.write_str("input over 65536 bytes; no field of it was taken"),
        }
    }
}

// The field that is not right: its number from 1, and the place in the input where it begins.
#[derive(Clone, Copy, Debug, PartialEq, Eq)]
pub struct BadField {
    pub field: u64,
    pub at: usize,
    pub fault: Fault,
}

impl fmt::Display for BadField {
    ghost output = { λ bad. Some (bad_text bad) };

    fn fmt<W: fmt::Write>(&self, f: &mut fmt::Formatter<W>) -> fmt::Result {
        let BadField { field, at, fault } = *self;
        write!(f, "bad: field {field} at byte offset {at}: {fault}")
    }
}
