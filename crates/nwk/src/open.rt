// Opening NWK: a judgement that only reads the rows, and then one commit.
ghost use Rattle.std.specs.Prelude.{◌≡◌};
ghost use Rattle.judging.specs.OpenNwk.{open_nwk};
ghost use Rattle.nwk.specs.Leaves.{opened};

use answer::Answer;
use judging::{caller_of, judge};
use nib::{CounterRow, Nwk};

// The answer, how many counter rows are in use after it, and the number of the active key.
#[derive(Clone, Copy)]
pub struct OpenedNwk {
    pub answer: Answer,
    pub used: usize,
    pub active: u8,
}

// Opens a frame in place. The counter rows are the caller's, and the first `used` of them are in use: the C interface holds that they come
// apart (pouchkettle_open_nwk).
pub fn open_nwk(nwk: Nwk, rows: &mut [CounterRow], used: usize, frame: &mut [u8]) -> OpenedNwk
    ensures { opened result rows.new frame.new ≡ open_nwk nwk rows.old used frame.old }
{
    let caller = caller_of(nwk, rows.len(), used, frame);
    let standing = counter_rows::held(rows, used, caller.number, caller.sender);
    let verdict = judge(nwk, caller.who, standing, frame);
    let settled = counter_rows::settle(rows, used, verdict.change);
    OpenedNwk {
        answer: verdict.answer,
        used: settled.unwrap_or(used),
        active: verdict.active,
    }
}
