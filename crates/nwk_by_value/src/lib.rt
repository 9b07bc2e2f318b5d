// Opening and securing NWK with the counters by value, for callers that lend no struct. Each lends its own copy to the call of `nwk`, and
// hands the copy back.
#![tactic(auto)]

ghost use Rattle.std.specs.Prelude.{◌≡◌};
ghost use Rattle.judging.specs.OpenNwk.{open_nwk};
ghost use Rattle.securing.specs.SecureNwk.{secure_nwk};
ghost use Rattle.nwk_by_value.specs.With.{opened_with, secured_with};

use answer::Answer;
use by_value::CounterTable;
use nib::{Nwk, Outgoing};

// What `open_nwk` answers, and the counter rows after it.
#[derive(Clone, Copy)]
pub struct OpenedWith {
    pub table: CounterTable,
    pub active: u8,
    pub answer: Answer,
}

// `open_nwk`, with 64 counter rows by value.
pub fn open_with(nwk: Nwk, mut table: CounterTable, frame: &mut [u8]) -> OpenedWith
    ensures { opened_with result frame.new ≡ open_nwk nwk table.rows table.used frame.old }
{
    let used = table.used;
    let opened = nwk::open_nwk(nwk, &mut table.rows, used, frame);
    table.used = opened.used;
    OpenedWith {
        table,
        active: opened.active,
        answer: opened.answer,
    }
}

// What `secure_nwk` answers, and the outgoing counter after it.
#[derive(Clone, Copy)]
pub struct SecuredWith {
    pub answer: Answer,
    pub outgoing: Outgoing,
}

// `secure_nwk`, with the outgoing counter by value.
pub fn secure_with(nwk: Nwk, mut outgoing: Outgoing, plain: &[u8], out: &mut [u8]) -> SecuredWith
    ensures { secured_with result out.new ≡ secure_nwk nwk outgoing plain.now out.old }
{
    let answer = nwk::secure_nwk(nwk, &mut outgoing, plain, out);
    SecuredWith { answer, outgoing }
}
