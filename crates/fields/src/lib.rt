// A cursor over fields: tag 1 byte, length 2 bytes low first, and so many bytes.
#![tactic(auto)]

ghost use Rattle.std.specs.Prelude.{◌≡◌};
ghost use Rattle.fields.specs.Fields.{field_at};

// A field's body lies between two places of the input.
#[derive(Clone, Copy, Debug, PartialEq, Eq)]
pub struct Field {
    pub tag: u8,
    pub from: usize,
    pub to: usize,
}

// A field of which the input holds only a part.
#[derive(Clone, Copy, Debug, PartialEq, Eq)]
pub struct Cut;

// The field at a place, any place at all; none at the end of the input.
#[tactic(auto, unfolding(crate::specs::Fields::field_at))]
pub fn field_at(s: &[u8], at: usize) -> Result<Option<Field>, Cut>
    ensures { result ≡ field_at s.now at }
{
    if s.len() <= at {
        return Ok(None);
    }
    let left = s.len() - at;
    if left < 3 {
        return Err(Cut);
    }
    let size = auxiliary_header::number_at(s, at + 1, 2) as usize;
    if left - 3 < size {
        return Err(Cut);
    }
    let from = at + 3;
    Ok(Some(Field {
        tag: s[at],
        from,
        to: from + size,
    }))
}
