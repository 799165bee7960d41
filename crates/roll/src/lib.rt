// The movers: an old record in the new form, where equal ticks stand in runs, and either form in the old one. Both test the record whole and measure what they will
// write before they write, so that a refusal leaves the room as it was.
#![tactic(auto)]

mod bytes;

ghost use Rattle.std.specs.Prelude.{true, false, ◌≡◌, ◌+◌, ◌*◌, ◌≤◌, leb, length, drop};
ghost use Rattle.record.specs.Read.{item_count};
ghost use Rattle.wire.specs.Wire.{put};
ghost use Rattle.roll.specs.Moved.{rolled_bytes, unrolled_bytes, moved_of, left_of};
ghost use Rattle.roll.specs.Steps.{Reads, Readable, output_of, TakenAt, item_bytes, repeated_at};

use bytes::{item_length, put_event, put_header, put_item, put_ticks};
use decide::Refusal;
use shaper::Limits;

// The bytes of a record's header, and of an event.
const HEADER: usize = 14;

const EVENT: usize = 6;

// The most events of a run.
const MOST: usize = 65535;

// Leaves in the room an old record in the new form, from the front always the longest run, and answers how many bytes that is. Its earliest fault, an item of kind 4 being 2; then
// 12, a room that is too short.
pub fn roll(s: &[u8], room: &mut [u8]) -> Result<u64, Refusal>
    ensures value { result ≡ moved_of (rolled_bytes s.now) room.old }
    ensures room_after { room.new ≡ left_of (rolled_bytes s.now) room.old }
{
    let sum = account::summarize(s, false)?;
    if !fits_in(s, room.len()) {
        return Err(Refusal::ShortRoom);
    }
    Ok(put_rolled(s, sum.limits, room) as u64)
}

// Leaves in the room a record of either form in the old one, and answers how many bytes that is. Its earliest fault; then 12, a room that is too short.
pub fn unroll(s: &[u8], room: &mut [u8]) -> Result<u64, Refusal>
    ensures value { result ≡ moved_of (unrolled_bytes s.now) room.old }
    ensures room_after { room.new ≡ left_of (unrolled_bytes s.now) room.old }
{
    let sum = account::summarize(s, true)?;
    let need = HEADER + EVENT * sum.events as usize;
    if room.len() < need {
        return Err(Refusal::ShortRoom);
    }
    put_unrolled(s, sum.limits, room);
    Ok(need as u64)
}

// Whether an old record without a fault takes no more than so many bytes in the new form. It never takes more than in the old one.
fn fits_in(s: &[u8], most: usize) -> bool
    requires { Readable false s.now }
    ensures { result ≡ leb (length (output_of (rolled_bytes s.now))) most }
{
    if s.len() <= most {
        return true;
    }
    measured(s) <= most
}

// How many bytes an old record without a fault takes in the new form.
fn measured(s: &[u8]) -> usize
    requires { Readable false s.now }
    ensures { result ≡ length (output_of (rolled_bytes s.now)) }
{
    let mut at = HEADER;
    let mut total = HEADER;
    // No `for`: an item takes as many events as are equal.
    while at < s.len() {
        let n = same_ahead(s, at);
        at += EVENT * n;
        total += item_length(n);
    }
    total
}

// Writes it to the front of a room, a header with these settings and an item for as many events as one can take, and answers how many bytes that is.
fn put_rolled(s: &[u8], limits: Limits, room: &mut [u8]) -> usize
    requires { Reads false s.now limits × (length (output_of (rolled_bytes s.now)) ≤ length room.old) }
    ensures value { result ≡ length (output_of (rolled_bytes s.now)) }
    ensures room_after { room.new ≡ put room.old 0 (output_of (rolled_bytes s.now)) }
{
    put_header(room, limits);
    let mut at = HEADER;
    let mut end = HEADER;
    // No `for`, as there.
    while at < s.len() {
        let n = same_ahead(s, at);
        let event = wire::get32(s, at + 2);
        end = put_item(room, end, event, n);
        at += EVENT * n;
    }
    end
}

// How many events from a place on one item takes: of a tick all that are equal, at most 65,535, and of a send itself.
fn same_ahead(s: &[u8], from: usize) -> usize
    requires { from + 6 ≤ length s.now }
    ensures { TakenAt s.now from result }
{
    let head = wire::get32(s, from);
    let number = wire::get16(s, from + 4);
    if head == SEND {
        return 1;
    }
    let mut at = from + EVENT;
    for n in 1..MOST {
        if s.len() - at < EVENT {
            return n;
        }
        if wire::get32(s, at) != head {
            return n;
        }
        if wire::get16(s, at + 4) != number {
            return n;
        }
        at += EVENT;
    }
    MOST
}

// The first four bytes of a send as one number: its length and its kind.
const SEND: u32 = 6 + 3 * 65536;

// Writes a record of either form without a fault to the front of a room in the old one: a header with these settings, and each item's events one by one.
fn put_unrolled(s: &[u8], limits: Limits, room: &mut [u8])
    requires { Reads true s.now limits × (length (output_of (unrolled_bytes s.now)) ≤ length room.old) }
    ensures { room.new ≡ put room.old 0 (output_of (unrolled_bytes s.now)) }
{
    put_header(room, limits);
    let mut at = HEADER;
    let mut end = HEADER;
    // No `for`: a run has 10 bytes, and an event 6.
    while at < s.len() {
        let next = put_next(s, at, room, end);
        at = next.at;
        end = next.end;
    }
}

// Writes the events of the item at a place, which has no fault, one by one, and answers both places behind it.
fn put_next(s: &[u8], at: usize, room: &mut [u8], end: usize) -> Ends
    requires { (at + item_bytes s.now at ≤ length s.now) × (end + 6 * item_count (drop at s.now) ≤ length room.old) }
    ensures at_value { (result.at ≡ at + item_bytes s.now at) × (result.end ≡ end + 6 * item_count (drop at s.now)) }
    ensures room_after { room.new ≡ put room.old end (repeated_at s.now at) }
{
    let kind = wire::get16(s, at + 2);
    if kind == RUN {
        let tick = wire::get32(s, at + 4);
        let count = wire::get16(s, at + 8);
        let after = put_ticks(room, end, tick, count as u32);
        return Ends {
            at: at + 10,
            end: after,
        };
    }
    let event = wire::get32(s, at + 2);
    put_event(room, end, event);
    Ends {
        at: at + EVENT,
        end: end + EVENT,
    }
}

// A place of a record that is read, and one of the room that is written.
#[derive(Clone, Copy)]
struct Ends {
    at: usize,
    end: usize,
}

// The kind of a run.
const RUN: u16 = 4;
