// Parts of the input, each at any place: where the string ends before, there are zeros. And the space that a call writes to.

ghost use Rattle.std.specs.Prelude.{OnSome, ◌≤◌, length};

// Every byte of the space before a call writes there, so that what was not written shows.
const BLANK: u8 = 0xee;

// The N bytes at a place; zeros alone where the string has fewer.
pub(crate) fn bytes_at<const N: usize>(s: &[u8], at: usize) -> [u8; N] {
    match s.get(at..) {
        Some(rest) => rest.first_chunk::<N>().copied().unwrap_or([0; N]),
        None => [0; N],
    }
}

pub(crate) fn octet(s: &[u8], at: usize) -> u8 {
    s.get(at).copied().unwrap_or(0)
}

pub(crate) fn four(s: &[u8], at: usize) -> u32 {
    u32::from_le_bytes(bytes_at(s, at))
}

pub(crate) fn eight(s: &[u8], at: usize) -> u64 {
    u64::from_le_bytes(bytes_at(s, at))
}

// The first n bytes, or all where there are fewer; and those after them.
pub(crate) fn parted(s: &[u8], n: usize) -> (&[u8], &[u8]) {
    s.split_at(n.min(s.len()))
}

// A copy of s at the start of the space, as much of it as there is space for.
fn lay(s: &[u8], space: &mut [u8]) {
    for (to, from) in space.iter_mut().zip(s) {
        *to = *from;
    }
}

// The string laid into the space, and the bytes that it then takes up; none where there is no space for it.
pub(crate) fn laid<'a>(s: &[u8], space: &'a mut [u8]) -> Option<&'a mut [u8]>
    ensures { OnSome result (length s.now ≤ length space.old) }
{
    lay(s, space);
    if space.len() < s.len() {
        return None;
    }
    Some(&mut space[..s.len()])
}

// The space made blank, and its first bytes, as many as there is to be room for; none where it has fewer.
pub(crate) fn blanked(space: &mut [u8], room: usize) -> Option<&mut [u8]> {
    space.fill(BLANK);
    if space.len() < room {
        return None;
    }
    Some(&mut space[..room])
}
