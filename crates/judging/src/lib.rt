// The judgement of an NWK frame that is to be opened (security/mod.rs of the Rust; document 01, 'Order of checks'): it reads the frame, the
// keys and what is held, and has no row at hand.
#![tactic(auto)]

ghost use Rattle.std.specs.Prelude.{◌≡◌, not, ◌||◌, eqb, ltb, Ok};
ghost use Rattle.claims.specs.declared.Who.TheVariants.{Claims};
ghost use Rattle.nib.specs.Counters.{capacity, counter_in};
ghost use Rattle.claims.proofs.ClaimLaws.{Sized};
ghost use Rattle.judging.specs.Halves.{held_of, room_of, judged_fresh, judged_heard, nwk_asked, caller_of, verdict_of, heard_frame};

use answer::{Accepted, Answer, Refusal};
use claims::{Claim, Who};
use nib::{CounterRow, NetworkKeys, Nwk, Standing};
use protection::Envelope;

// Whose row is asked for; number and sender are 0 where the frame claims to be nobody's. An Option of the two is no plainer: opening
// would branch where it now looks for a row of 0 and 0, which changes nothing.
#[derive(Clone, Copy)]
pub struct Caller {
    pub who: Result<Who, Refusal>,
    pub number: u8,
    pub sender: u64,
}

// The answer, the number of the active key after it, and the row that is written, if one is.
#[derive(Clone, Copy)]
pub struct Verdict {
    pub answer: Answer,
    pub active: u8,
    pub change: Option<CounterRow>,
}

// Level not 5, or a count in use above its capacity.
fn unfit(nwk: Nwk, lent: usize, used: usize) -> bool
    ensures { result ≡ (not (eqb nwk.level 5) || (ltb 2 nwk.keys.used || ltb (capacity lent) used)) }
{
    nwk.level != 5 || 2 < nwk.keys.used || nib::capacity(lent) < used
}

// What the state and the headers settle, or else what they claim.
#[tactic(auto, unfolding(crate::specs::Halves::nwk_asked))]
fn asked(nwk: Nwk, lent: usize, used: usize, frame: &[u8]) -> Result<Who, Refusal>
    ensures { result ≡ nwk_asked nwk lent used frame.now }
{
    if unfit(nwk, lent, used) {
        return Err(Refusal::Unsupported);
    }
    claims::nwk_who(nwk.keys, frame)
}

pub fn caller_of(nwk: Nwk, lent: usize, used: usize, frame: &[u8]) -> Caller
    ensures { result ≡ caller_of (nwk_asked nwk lent used frame.now) }
{
    let who = asked(nwk, lent, used, frame);
    match who {
        Ok(Who::Claims(claim)) => Caller {
            who,
            number: claims::number_of(claim.key),
            sender: claim.sender,
        },
        _ => Caller {
            who,
            number: 0,
            sender: 0,
        },
    }
}

// The counter that is held, if one is.
fn counter_of(standing: Standing) -> Option<u32>
    ensures { result ≡ counter_in (held_of standing) }
{
    match standing {
        Standing::Held(row) | Standing::HeldWithoutRoom(row) => Some(row.counter),
        Standing::Free | Standing::Full => None,
    }
}

fn has_room(standing: Standing) -> bool
    ensures { result ≡ room_of standing }
{
    match standing {
        Standing::Held(_) | Standing::Free => true,
        Standing::Full | Standing::HeldWithoutRoom(_) => false,
    }
}

// A frame whose counter is fresh: its size, its tag, and room for its row, in this order.
#[tactic(auto, unfolding(crate::specs::Halves::judged_fresh))]
fn judged_fresh(keys: NetworkKeys, claim: Claim, room: bool, frame: &mut [u8]) -> Answer
    requires { Sized claim frame.old }
    ensures value { result ≡ (judged_fresh keys claim room frame.old).answer }
    ensures frame_after { frame.new ≡ (judged_fresh keys claim room frame.old).frame }
{
    if frame.len() - claim.payload < 4 {
        return Err(Refusal::Cut);
    }
    // `aps` fills one alike: claims know no envelope, and a crate above both would hold these lines alone.
    let envelope = Envelope {
        key: nib::key_under(keys, claims::number_of(claim.key)),
        sender: claim.sender,
        counter: claim.counter,
        at: claim.at,
        payload: claim.payload,
    };
    envelope.open(room, frame)
}

// A frame that claims to be somebody's, by what is held for it.
fn judged(keys: NetworkKeys, claim: Claim, standing: Standing, frame: &mut [u8]) -> Answer
    requires { Sized claim frame.old }
    ensures value { result ≡ (judged_heard keys claim standing frame.old).answer }
    ensures frame_after { frame.new ≡ (judged_heard keys claim standing frame.old).frame }
{
    protection::fresh(counter_of(standing), claim.counter)?;
    judged_fresh(keys, claim, has_room(standing), frame)
}

// The judgement. A frame that is refused keeps every byte.
pub fn judge(nwk: Nwk, who: Result<Who, Refusal>, standing: Standing, frame: &mut [u8]) -> Verdict
    requires { (c : Claim) → who ≡ Ok (Claims c) → Sized c frame.old }
    ensures value { result ≡ verdict_of nwk who standing frame.old }
    ensures frame_after { frame.new ≡ heard_frame nwk who standing frame.old }
{
    let active = nwk.active;
    let change = None;
    match who {
        Err(refusal) => Verdict {
            answer: Err(refusal),
            active,
            change,
        },
        Ok(Who::Told(accepted)) => Verdict {
            answer: Ok(accepted),
            active,
            change,
        },
        Ok(Who::Claims(claim)) => {
            let number = claims::number_of(claim.key);
            let answer = judged(nwk.keys, claim, standing, frame);
            match answer {
                Ok(Accepted::Done { start: _, len: _ }) => Verdict {
                    answer,
                    active: nib::turned(active, number),
                    change: Some(nib::recorded_row(number, claim.sender, claim.counter)),
                },
                _ => Verdict {
                    answer,
                    active,
                    change,
                },
            }
        }
    }
}
