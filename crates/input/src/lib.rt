// Reading a whole input into memory that is lent, for the programs.
#![tactic(auto)]

ghost use Rattle.std.specs.Prelude.{◌<◌, ◌≤◌, length, take, IfOk};
ghost use Rattle.std.specs.Io.KnownBytes.{Consumes, IsAtEnd};

use std::io::{self, Read};

// Standard input, where a read that fails counts as the end: what was read before stays.
#[derive(Clone, Copy)]
pub struct StandardInput<'a> {
    pub rt: &'a HostRuntime,
}

impl Read for StandardInput<'_> {
    fn read(&mut self, buf: &mut [u8]) -> io::Result<usize> {
        Ok(self.rt.stdin().read(buf).unwrap_or(0))
    }
}

// Reads until the space is full or the input ends: how many bytes were read. Each read but the last brings one at least.
pub fn read_full<R: Read>(source: &mut R, space: &mut [u8]) -> io::Result<usize>
    ensures count { IfOk result (λ n. n ≤ length space.new) }
    ensures bytes { IfOk result (λ n. Consumes (R.remaining source.old) (R.remaining source.new) (take n space.new)) }
    ensures end { IfOk result (λ n. n < length space.new → IsAtEnd (R.remaining source.new)) }
{
    let mut count = 0;
    for _ in 0..space.len() {
        if count == space.len() {
            break;
        }
        let more = source.read(&mut space[count..])?;
        if more == 0 {
            break;
        }
        count += more;
    }
    Ok(count)
}
