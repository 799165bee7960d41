// A fairness frame's 12 bytes: written, and parsed. Whether a station takes a frame in, by ringlet bit, ttl and address, is not decided here.
#![tactic(auto)]

ghost use Rattle.std.specs.Prelude.{◌≡◌, ◌<◌, length};
ghost use Rattle.decide.specs.Test.{test};
ghost use Rattle.wire.specs.Wire.{be, digits_be, put};
ghost use Rattle.advert.specs.Frame.{advert_length, advert_bytes, whole, advert_in, parsed_of};

use decide::Refusal;

// How many bytes a fairness frame has.
pub const LENGTH: usize = 12;

// Its frame type.
const FAIRNESS: u8 = 2;

// What a fairness frame says.
#[derive(Clone, Copy)]
pub struct Advert {
    // the ringlet bit, 0 or 1
    pub ringlet: u8,
    pub ttl: u8,
    // the address: its high 16 bits, and its low 32 bits
    pub high: u32,
    pub low: u32,
    pub rate: u16,
}

// Writes the frame to `room`. Of the ringlet the lowest bit is written, and of the high part of the address the low 16 bits.
pub fn write(advert: Advert, room: &mut [u8])
    requires { length room.old ≡ advert_length }
    ensures { room.new ≡ advert_bytes advert }
{
    let address = advert.high as u64 * 4294967296 + advert.low as u64;
    put8(room, 0, advert.ttl);
    put8(room, 1, advert.ringlet % 2 * 128 + FAIRNESS * 16);
    wire::put48be(room, 2, address);
    wire::put16be(room, 8, 0);
    wire::put16be(room, 10, advert.rate);
}

// What the bytes say, or `NotWhole` if they are not a whole fairness frame. Any bytes may be given.
pub fn parse(frame: &[u8]) -> Result<Advert, Refusal>
    ensures { result ≡ parsed_of frame.now }
{
    if !is_whole(frame) {
        return Err(Refusal::NotWhole);
    }
    Ok(read(frame))
}

// Whether the bytes have the length, the frame type and the header kind of a fairness frame.
pub fn is_whole(frame: &[u8]) -> bool
    ensures { result ≡ test (whole frame.now) }
{
    if frame.len() != LENGTH {
        return false;
    }
    if get8(frame, 1) / 16 % 4 != FAIRNESS {
        return false;
    }
    if wire::get16be(frame, 8) / 8192 != 0 {
        return false;
    }
    true
}

// What a whole frame says.
fn read(frame: &[u8]) -> Advert
    requires { length frame.now ≡ advert_length }
    ensures { result ≡ advert_in frame.now }
{
    let ttl = get8(frame, 0);
    let base = get8(frame, 1);
    let address = wire::get48be(frame, 2);
    let rate = wire::get16be(frame, 10);
    Advert {
        ringlet: base / 128,
        ttl,
        high: (address / 4294967296) as u32,
        low: (address % 4294967296) as u32,
        rate,
    }
}

// The byte of `s` at `at`.
fn get8(s: &[u8], at: usize) -> u8
    requires { at < length s.now }
    ensures { result ≡ be 1 s.now at }
{
    s[at]
}

// Writes `v` to the byte of `s` at `at`.
fn put8(s: &mut [u8], at: usize, v: u8)
    requires { at < length s.old }
    ensures { s.new ≡ put s.old at (digits_be 1 v) }
{
    s[at] = v;
}
