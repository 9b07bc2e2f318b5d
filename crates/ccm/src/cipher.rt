// What a frame is sealed and opened under.
ghost use Rattle.std.specs.Prelude.{◌≤◌};

use tables::RoundTable;

#[derive(Clone, Copy)]
pub(crate) struct Cipher<'a> {
    pub table: RoundTable<'a>,
    pub keys: &'a [u32; 44],
    pub nonce: [u8; 13],
    pub tag_length: usize,
    ghost tag_taken: { (4 ≤ tag_length) × (tag_length ≤ 16) },
}
