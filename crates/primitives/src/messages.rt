// Messages over the calls of `mmo`, with the tables of AES lent.
ghost use Rattle.std.specs.Prelude.{◌≡◌, ◌+◌, length};
ghost use Rattle.answer.specs.Numbers.{giving};
ghost use Rattle.mmo.specs.Hash.{zero_block};
ghost use Rattle.mmo.specs.Stream.{hashing, started, added, finished};

use answer::Refusal;
use mmo::Hashing;
use tables::CipherTables;

// A first block taken by itself.
pub(crate) fn begun(block: [u8; 16], tables: CipherTables) -> Hashing
    ensures { result ≡ added (started zero_block) block }
{
    mmo::hash_add_with(mmo::hash_start(), &block, tables).unwrap()
}

// The value after the rest of a message.
pub(crate) fn ended(state: Hashing, rest: &[u8], tables: CipherTables) -> Result<[u8; 16], Refusal>
    ensures { result ≡ giving (hashing (state.total + length rest.now)) (finished (added state rest.now)) }
{
    let all = mmo::hash_add_with(state, rest, tables)?;
    mmo::hash_finish_with(all, tables)
}
