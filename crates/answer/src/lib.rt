// The numbers that the host's calls answer, read as eight bytes: byte 0, the lowest, is 0 where the call was carried out, and the others say what was found. Each
// value is cut to the bytes that it has, so that none runs into another's, whatever is given.
#![tactic(auto)]

ghost use Rattle.std.specs.Prelude.{◌≡◌, [], ◌∷◌};
ghost use Rattle.answer.specs.Bytes.{packed, bit_of, chosen_bytes, moved_bytes, permitted_bytes, written_bytes, mark_bytes, refused_bytes, selected_bytes};

use queue::Frame;

// A one at byte 1.
const BYTE_1: u64 = 256;

// A one at byte 2.
const BYTE_2: u64 = 65536;

// A one at byte 3.
const BYTE_3: u64 = 16777216;

// A one at byte 4.
const BYTE_4: u64 = 4294967296;

// A one at byte 6.
const BYTE_6: u64 = 281474976710656;

// A choice of side: byte 1 the side, 2 its distance, 3 the ttl, 4 the wrap mark.
pub fn chosen(side: u64, distance: u64, ttl: u64, mark: bool) -> u64
    ensures { result ≡ packed (chosen_bytes side distance ttl mark) }
{
    four(side, distance, ttl, bit(mark))
}

// A path: byte 1 whether the frame is delivered, 2 the hops that it moves.
pub fn moved(delivered: bool, hops: u64) -> u64
    ensures { result ≡ packed (moved_bytes delivered hops) }
{
    four(bit(delivered), hops, 0, 0)
}

// A summary's events, permitted throughout: byte 1 says so, 4 to 7 the credit at the end.
pub fn permitted(credit: u64) -> u64
    ensures { result ≡ packed (permitted_bytes credit) }
{
    BYTE_1 + BYTE_4 * (credit % 4294967296)
}

// A record that was moved: bytes 4 to 7 how many bytes were written.
pub fn written(n: u64) -> u64
    ensures { result ≡ packed (written_bytes n) }
{
    BYTE_4 * (n % 4294967296)
}

// A client's frame that was taken: byte 4 the mark that it got.
pub fn marked(mark: u32) -> u64
    ensures { result ≡ packed (mark_bytes mark) }
{
    four(0, 0, 0, mark as u64)
}

// A client's frame that was refused: byte 0 the number, 4 to 7 what it says beside it.
pub fn refused(number: u8, detail: u64) -> u64
    ensures { result ≡ packed (refused_bytes number detail) }
{
    number as u64 + BYTE_4 * (detail % 4294967296)
}

// A frame that goes next: byte 1 where it comes from, 2 class, 3 hops, 4 the mark, 6 and 7 size.
pub fn selected(origin: u32, frame: Frame) -> u64
    ensures { result ≡ packed (selected_bytes origin frame) }
{
    let low = four(
        origin as u64,
        frame.class as u64,
        frame.hops as u64,
        frame.mark as u64,
    );
    low + BYTE_6 * (frame.size % 65536) as u64
}

// Bytes 1 to 4.
fn four(one: u64, two: u64, three: u64, four: u64) -> u64
    ensures { result ≡ packed (0 ∷ one ∷ two ∷ three ∷ four ∷ []) }
{
    BYTE_1 * (one % 256) + BYTE_2 * (two % 256) + BYTE_3 * (three % 256) + BYTE_4 * (four % 256)
}

// 1 for yes, 0 for no.
#[tactic(auto, unfolding(crate::specs::Bytes::bit_of))]
fn bit(yes: bool) -> u64
    ensures { result ≡ bit_of yes }
{
    yes as u64
}
