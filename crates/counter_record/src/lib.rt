// Taking the next outgoing counter (document 01, 'Called alone'; ZB 4.3.4): the caller's record is lent, the next number is left
// in it and the old one is handed back.
#![tactic(auto)]

ghost use Rattle.std.specs.Prelude.{◌≡◌};
ghost use Rattle.nib.specs.Sending.{took, taken};

use answer::Refusal;
use by_value::take_with;
use nib::Outgoing;

// The last counter is never handed out: then the record stays as it is.
pub fn take(outgoing: &mut Outgoing) -> Result<u32, Refusal>
    ensures { took result outgoing.new ≡ taken outgoing.old }
{
    let (counter, left) = take_with(*outgoing)?;
    *outgoing = left;
    Ok(counter)
}
