ghost use Rattle.std.specs.Prelude.{length};
ghost use Rattle.std.specs.Iterator.{at_most};

// The fields of the input: tag 1 byte, length 2 bytes low first, then as many bytes.
#[derive(Clone, Copy)]
pub enum Field {
    Name,
    Key,
    Nonce,
    Associated,
    Data,
    Tag,
    Long,
    KeyOfLong,
    DataOfLong,
    Run,
    Unknown,
}

impl From<u8> for Field {
    fn from(tag: u8) -> Field {
        match tag {
            1 => Field::Name,
            2 => Field::Key,
            3 => Field::Nonce,
            4 => Field::Associated,
            5 => Field::Data,
            6 => Field::Tag,
            7 => Field::Long,
            8 => Field::KeyOfLong,
            9 => Field::DataOfLong,
            16 => Field::Run,
            _ => Field::Unknown,
        }
    }
}

// The number in one or two bytes, low byte first.
pub(crate) fn number(s: &[u8]) -> usize {
    match s {
        [low] => usize::from(*low),
        [low, high] => usize::from(u16::from_le_bytes([*low, *high])),
        _ => 0,
    }
}

// What is left of the input, field by field. It ends where a field is cut short.
#[derive(Clone, Copy)]
pub struct Fields<'a> {
    rest: &'a [u8],
}

impl<'a> Fields<'a> {
    pub(crate) fn of(input: &'a [u8]) -> Fields<'a> {
        Fields { rest: input }
    }
}

impl<'a> Iterator for Fields<'a> {
    type Item = (Field, &'a [u8]);

    ghost remaining = { λ s. at_most (length s.rest.now) };

    fn next(&mut self) -> Option<(Field, &'a [u8])> {
        let (head, rest) = self.rest.split_at_checked(3)?;
        let (body, rest) = rest.split_at_checked(number(&head[1..]))?;
        self.rest = rest;
        Some((Field::from(head[0]), body))
    }
}
