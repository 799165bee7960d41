// A record given as hex text, in chunks of any sizes: the bytes that its digits pair up to are fed.
#![tactic(auto)]

ghost use Rattle.std.specs.Prelude.{◌≡◌, ◌<◌, length};
ghost use Rattle.hex_text.specs.Hex.{glyph_of};
ghost use Rattle.hex_text.specs.Fed.{byte_of, start_of, read_text, is_whole, finish_of, ends_of};
ghost use Rattle.hex_text.specs.Decoded.{code_of, Table, decoded_to, Steps, Decodes};

use decide::Refusal;
use feed::{Feed, Stage};
use summary::Summary;

// What a character is: a hex digit with its value, a blank or line end, or other text.
#[derive(Clone, Copy)]
pub enum Glyph {
    Digit(u8),
    Blank,
    Other,
}

// How far a text has come: between two bytes, behind the first digit of a byte, or past other text.
#[derive(Clone, Copy)]
pub enum Place {
    Between,
    Behind(u8),
    Lost,
}

// A text so far: the record that its bytes are, and the place in it.
#[derive(Clone, Copy)]
pub struct Hex {
    pub feed: Feed,
    pub place: Place,
}

impl Hex {
    // A text of which no character has come.
    pub fn new() -> Hex
        ensures { result ≡ start_of }
    {
        let feed = Feed::new();
        Hex {
            feed,
            place: Place::Between,
        }
    }

    // The text with all characters of a chunk more: what fits the room is decoded, then fed, until the chunk is read.
    pub fn text(self, chunk: &[u8]) -> Hex
        ensures { result ≡ read_text self chunk.now }
    {
        let codes = codes();
        let mut room = [0u8; 4096];
        let mut next = self;
        let mut i = 0;
        // No `for`: a part ends where the room is full.
        while i < chunk.len() {
            let part = decode(&codes, chunk, i, next.place, &mut room);
            let feed = next.feed.feed(&room[..part.count]);
            next = Hex {
                feed,
                place: part.place,
            };
            i = part.next;
        }
        next
    }

    // What the text so far comes to: 2, not whole, for other text or an odd digit, else what its bytes come to.
    pub fn finish(self) -> Result<Summary, Refusal>
        ensures { result ≡ finish_of self }
    {
        if self.is_text() {
            return self.feed.finish();
        }
        Err(Refusal::NotWhole)
    }

    // Whether the text so far may end here as hex: behind a whole byte, and past no other text.
    pub fn is_text(self) -> bool
        ensures { result ≡ is_whole self.place }
    {
        matches!(self.place, Place::Between)
    }

    // Whether what is still to come can change nothing: the answer is 2, whatever follows.
    pub fn ends(self) -> bool
        ensures { result ≡ ends_of self }
    {
        matches!(self.place, Place::Lost)
            || matches!(self.feed.stage, Stage::Stopped(fault) if fault.number() == 2)
    }
}

// How far a chunk is decoded: the place in the text, the next character, and how many bytes stand in the room.
#[derive(Clone, Copy)]
struct Decoded {
    place: Place,
    next: usize,
    count: usize,
}

impl Decoded {
    // Decoded up to a character.
    fn new(place: Place, next: usize, count: usize) -> Decoded
        ensures { result ≡ decoded_to place next count }
    {
        Decoded { place, next, count }
    }
}

// The characters from one on, until the chunk is read or the room is full.
fn decode(codes: &[u8; 256], chunk: &[u8], from: usize, place: Place, room: &mut [u8]) -> Decoded
    requires { Table codes.now × ((from < length chunk.now) × (0 < length room.old)) }
    ensures { Decodes chunk.now from place room.old room.new result }
{
    let mut at = Decoded {
        place,
        next: from,
        count: 0,
    };
    // No `for`: a step reads one character or two.
    while at.next < chunk.len() {
        if room.len() <= at.count {
            return at;
        }
        at = step(codes, chunk, at, room);
    }
    at
}

// One character more, or both digits of a byte at once. Past other text nothing counts: then the chunk is read.
fn step(codes: &[u8; 256], chunk: &[u8], at: Decoded, room: &mut [u8]) -> Decoded
    requires { Table codes.now × ((at.next < length chunk.now) × (at.count < length room.old)) }
    ensures { Steps chunk.now room.old at room.new result }
{
    let place = at.place;
    let i = at.next;
    let n = at.count;
    let d = code_in(codes, chunk[i]);
    if OTHER <= d {
        return Decoded::new(Place::Lost, chunk.len(), n);
    }
    if BLANK <= d {
        return Decoded::new(place, i + 1, n);
    }
    match place {
        Place::Between => {
            if i + 1 < chunk.len() {
                let e = code_in(codes, chunk[i + 1]);
                if e < BLANK {
                    room[n] = paired(d, e);
                    return Decoded::new(Place::Between, i + 2, n + 1);
                }
            }
            Decoded::new(Place::Behind(d), i + 1, n)
        }
        Place::Behind(high) => {
            room[n] = paired(high, d);
            Decoded::new(Place::Between, i + 1, n + 1)
        }
        Place::Lost => Decoded::new(Place::Lost, chunk.len(), n),
    }
}

// The code of a blank, and of other text; a digit's is its value.
const BLANK: u8 = 16;

const OTHER: u8 = 17;

// The code of every character.
fn codes() -> [u8; 256]
    ensures { Table result }
{
    let mut codes = [0u8; 256];
    for c in 0..256 {
        codes[c] = code_of(glyph_of(c as u8));
    }
    codes
}

// A character's code, by the table.
fn code_in(codes: &[u8; 256], c: u8) -> u8
    requires { Table codes.now }
    ensures { result ≡ code_of (glyph_of c) }
{
    codes[c as usize]
}

// The code of what a character is.
fn code_of(glyph: Glyph) -> u8
    ensures { result ≡ code_of glyph }
{
    match glyph {
        Glyph::Digit(d) => d,
        Glyph::Blank => BLANK,
        Glyph::Other => OTHER,
    }
}

// What a character is: both letter cases; space, tab, carriage return and line feed are blanks.
pub fn glyph_of(c: u8) -> Glyph
    ensures { result ≡ glyph_of c }
{
    match c {
        b'0'..=b'9' => Glyph::Digit(c - b'0'),
        b'A'..=b'F' => Glyph::Digit(c - b'A' + 10),
        b'a'..=b'f' => Glyph::Digit(c - b'a' + 10),
        b'\t' | b'\n' | b'\r' | b' ' => Glyph::Blank,
        _ => Glyph::Other,
    }
}

// The byte of two digits, the higher first; of larger numbers the last digits count.
fn paired(high: u8, low: u8) -> u8
    ensures { result ≡ byte_of high low }
{
    (high % 16) * 16 + low % 16
}
