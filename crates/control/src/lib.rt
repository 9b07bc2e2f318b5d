// The control byte (ZB 4.5.1.1): bits 0 to 2 level, 3 and 4 key identifier, 5 to 7 whether a sender is present.
#![tactic(auto)]

ghost use Rattle.std.specs.Prelude.{◌≡◌};
ghost use Rattle.tables.specs.Levels.{tag_length};
ghost use Rattle.control.specs.Control.{level, filled, identifier_of, has_sender, has_number, sent};

#[derive(Clone, Copy, Debug, PartialEq, Eq)]
pub struct Control {
    pub byte: u8,
}

// ZB 4.5.1.1.2: numbers 0 to 3.
#[derive(Clone, Copy, Debug, PartialEq, Eq)]
pub enum KeyIdentifier {
    Link,
    Network,
    Transport,
    Load,
}

impl Control {
    // The control byte as it is sent with a sender: the level bits are clear on the air.
    pub fn sent(key: KeyIdentifier) -> Control
        ensures { result.byte ≡ sent key }
    {
        match key {
            KeyIdentifier::Link => Control { byte: 0x20 },
            KeyIdentifier::Network => Control { byte: 0x28 },
            KeyIdentifier::Transport => Control { byte: 0x30 },
            KeyIdentifier::Load => Control { byte: 0x38 },
        }
    }

    pub fn level(self) -> u8
        ensures { result ≡ level self.byte }
    {
        self.byte & 0b0000_0111
    }

    pub fn tag_length(self) -> u8
        ensures { result ≡ tag_length (level self.byte) }
    {
        tables::tag_length(self.level())
    }

    // Bits 0 to 2 become the level's; no other bit changes.
    #[tactic(auto, using(crate::proofs::Bits::masked_fill))]
    pub fn filled(self, wanted: u8) -> Control
        ensures { result.byte ≡ filled self.byte wanted }
    {
        Control {
            byte: self.byte & 0b1111_1000 | wanted & 0b0000_0111,
        }
    }

    pub fn cleared(self) -> Control
        ensures { result.byte ≡ filled self.byte 0 }
    {
        self.filled(0)
    }

    #[tactic(auto, using(crate::proofs::Bits::masked_identifier), unfolding(crate::specs::Control::identifier_of))]
    pub fn key(self) -> KeyIdentifier
        ensures { result ≡ identifier_of self.byte }
    {
        let identifier = self.byte >> 3 & 0b11;
        match identifier {
            0 => KeyIdentifier::Link,
            1 => KeyIdentifier::Network,
            2 => KeyIdentifier::Transport,
            _ => KeyIdentifier::Load,
        }
    }

    // ZB 4.5.1.1.3 names bit 5 alone; the Rust's reading is kept.
    #[tactic(auto, using(crate::proofs::Bits::upper_bits))]
    pub fn has_sender(self) -> bool
        ensures { result ≡ has_sender self.byte }
    {
        self.byte >> 5 != 0
    }

    #[tactic(auto, using(crate::proofs::Bits::masked_number))]
    pub fn has_number(self) -> bool
        ensures { result ≡ has_number self.byte }
    {
        self.byte >> 3 & 0b11 == 1
    }
}
