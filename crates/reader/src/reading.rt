// Fields act in order. A line for each frame: its number from 1, answer, start, length.
ghost use Rattle.std.specs.Prelude.{◌≡◌};
ghost use Rattle.judging.specs.OpenNwk.{open_nwk};
ghost use Rattle.reader.specs.Reading.{started, bad_field, quietly, eventually, key_field, counter_field, active_field, opened_by, frame_field, telling, acted, stepped};

use crate::faults::{BadField, Fault};
use answer::{Answer, Refusal, Told};
use by_value::CounterTable;
use fields::field_at;
use nib::{CounterRow, NetworkKeys, Nwk, Standing};

// The gateway, the place in the input, and how many fields were read and frames presented. No Debug and no PartialEq: it holds keys.
#[derive(Clone, Copy)]
pub struct Reader {
    pub nwk: Nwk,
    pub table: CounterTable,
    pub at: usize,
    pub fields: u64,
    pub frames: u64,
}

#[derive(Clone, Copy, Debug, PartialEq, Eq)]
pub struct Line {
    pub frame: u64,
    pub told: Told,
}

// What a field gives: nothing to say, a line, or the end of the input.
#[derive(Clone, Copy, Debug, PartialEq, Eq)]
pub enum Event {
    Quiet,
    Tells(Line),
    End,
}

impl Reader {
    // Level 5, active 0 and empty tables.
    #[tactic(auto, unfolding(crate::specs::Reading::started))]
    pub fn start() -> Reader
        ensures { result ≡ started }
    {
        Reader {
            nwk: Nwk {
                level: 5,
                own: 0,
                active: 0,
                keys: NetworkKeys {
                    rows: [nib::key_row(0, [0; 16]); 2],
                    used: 0,
                },
            },
            table: CounterTable {
                rows: [nib::empty_row(); 64],
                used: 0,
            },
            at: 0,
            fields: 0,
            frames: 0,
        }
    }

    // The reader stands where the field begins.
    fn bad(&self, fault: Fault) -> BadField
        ensures { result ≡ bad_field self.now fault }
    {
        let field = self.fields.wrapping_add(1);
        let at = self.at;
        BadField { field, at, fault }
    }

    // 0x01: number, key.
    #[tactic(auto, unfolding(crate::specs::Reading::key_field))]
    fn key_field(&mut self, body: &[u8]) -> Result<(), Fault>
        ensures { quietly result self.new ≡ key_field self.old body.now }
    {
        if body.len() != 17 {
            return Err(Fault::WrongLength);
        }
        let used = self.nwk.keys.used;
        if 2 <= used {
            return Err(Fault::ThirdKey);
        }
        let number = body[0];
        if nib::key_of(self.nwk.keys, number).is_some() {
            return Err(Fault::RepeatedKey);
        }
        let mut key = [0u8; 16];
        key.copy_from_slice(&body[1..]);
        self.nwk.keys.rows[used] = nib::key_row(number, key);
        self.nwk.keys.used = used + 1;
        Ok(())
    }

    // 0x02: number, sender, counter.
    #[tactic(auto, using(crate::proofs::Steps::has_held), unfolding(crate::specs::Reading::counter_field))]
    fn counter_field(&mut self, body: &[u8]) -> Result<(), Fault>
        ensures { quietly result self.new ≡ counter_field self.old body.now }
    {
        if body.len() != 13 {
            return Err(Fault::WrongLength);
        }
        let rows: &[CounterRow] = &self.table.rows;
        if rows.len() <= self.table.used {
            return Err(Fault::SurplusRow);
        }
        let number = body[0];
        let sender = auxiliary_header::number_at(body, 1, 8);
        let counter = auxiliary_header::number_at(body, 9, 4) as u32;
        let standing = by_value::held_with(&self.table, number, sender);
        if let Standing::Held(_) | Standing::HeldWithoutRoom(_) = standing {
            return Err(Fault::RepeatedRow);
        }
        if let Ok(table) = by_value::record_with(self.table, number, sender, counter) {
            self.table = table;
        }
        Ok(())
    }

    // 0x03: the active number.
    #[tactic(auto, unfolding(crate::specs::Reading::active_field))]
    fn active_field(&mut self, body: &[u8]) -> Result<(), Fault>
        ensures { quietly result self.new ≡ active_field self.old body.now }
    {
        if body.len() != 1 {
            return Err(Fault::WrongLength);
        }
        self.nwk.active = body[0];
        Ok(())
    }

    // A frame, opened in a copy. One of more than 1,024 bytes is refused as it stands (7).
    #[tactic(auto, using(crate::proofs::Steps::too_long))]
    fn open(&mut self, body: &[u8]) -> Answer
        ensures value { result ≡ (open_nwk self.old.nwk self.old.table.rows self.old.table.used body.now).answer }
        ensures reader { self.new ≡ opened_by self.old (open_nwk self.old.nwk self.old.table.rows self.old.table.used body.now) }
    {
        if 1024 < body.len() {
            return Err(Refusal::Unsupported);
        }
        let mut space = [0u8; 1024];
        let frame = &mut space[..body.len()];
        frame.copy_from_slice(body);
        let used = self.table.used;
        let opened = nwk::open_nwk(self.nwk, &mut self.table.rows, used, frame);
        self.table.used = opened.used;
        self.nwk.active = opened.active;
        opened.answer
    }

    // 0x10: a frame.
    #[tactic(auto, unfolding(crate::specs::Reading::frame_field))]
    fn frame_field(&mut self, body: &[u8]) -> Line
        ensures { telling result self.new ≡ frame_field self.old body.now }
    {
        let answer = self.open(body);
        self.frames = self.frames.wrapping_add(1);
        Line {
            frame: self.frames,
            told: Told::from(answer),
        }
    }

    #[tactic(auto, unfolding(crate::specs::Reading::acted))]
    fn act(&mut self, tag: u8, body: &[u8]) -> Result<Event, Fault>
        ensures { eventually result self.new ≡ acted self.old tag body.now }
    {
        // A tag is met here alone: an enum of the tags is no plainer, as it would be matched once to be made and once here.
        match tag {
            0x01 => self.key_field(body)?,
            0x02 => self.counter_field(body)?,
            0x03 => self.active_field(body)?,
            0x10 => return Ok(Event::Tells(self.frame_field(body))),
            _ => return Err(Fault::UnknownTag),
        }
        Ok(Event::Quiet)
    }

    // One field of the input s, from where the reader stands. The reader goes past a whole field, whatever it gave.
    #[tactic(auto, using(fields::specs::FieldLaws::lies), unfolding(crate::specs::Reading::stepped))]
    pub fn next(&mut self, s: &[u8]) -> Result<Event, BadField>
        ensures { record { event = result; reader = self.new } ≡ stepped self.old s.now }
    {
        if 65536 < s.len() {
            return Err(self.bad(Fault::InputTooLong));
        }
        let Ok(read) = field_at(s, self.at) else {
            return Err(self.bad(Fault::CutField));
        };
        let Some(field) = read else {
            return Ok(Event::End);
        };
        let acted = self.act(field.tag, &s[field.from..field.to]);
        let event = acted.map_err(|fault| self.bad(fault));
        self.at = field.to;
        self.fields = self.fields.wrapping_add(1);
        event
    }
}
