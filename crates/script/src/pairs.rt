// Bytes: two hex digits each.
ghost use Rattle.std.specs.Prelude.{◌*◌, ◌≤◌, length, IfOk};
ghost use Rattle.arrayvec.specs.ArrayVec.{array_vec_len};

use crate::{Fault, Words};
use arrayvec::ArrayVec;

// How many bytes a text may spell.
const ROOM: usize = 4096;

/// The bytes that a text spells.
pub type Bytes = ArrayVec<u8, ROOM>;

/// The bytes that the only word of a text spells, as `bytes_into` puts them.
pub fn bytes_of(text: &[u8]) -> Result<Bytes, Fault>
    ensures { IfOk result (λ bytes. 2 * array_vec_len bytes ≤ length text.now) }
{
    let mut bytes = Bytes::from([0; ROOM]);
    let count = bytes_into(text, bytes.as_mut_slice())?;
    bytes.truncate(count);
    Ok(bytes)
}

/// Puts the bytes that the only word of a text spells at the start of `room`, and answers how many they are; a text without a word spells none. A second word
/// is wrong, and so are other characters, an odd digit, and more bytes than there is room for.
pub fn bytes_into(text: &[u8], room: &mut [u8]) -> Result<usize, Fault>
    ensures fits { IfOk result (λ n. n ≤ length room.new) }
    ensures spelt { IfOk result (λ n. 2 * n ≤ length text.now) }
{
    let mut words = Words(text);
    let word = words.next().unwrap_or(b"");
    let count = word.len() / 2;
    if words.next().is_some() || room.len() < count {
        return Err(Fault::NoHex);
    }
    match hex::decode_to_slice(word, &mut room[..count]) {
        Ok(()) => Ok(count),
        Err(_) => Err(Fault::NoHex),
    }
}
